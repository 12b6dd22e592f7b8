// Quarter turns: lists turned, each with so much room for its result, and each refusal.
use crate::inner::print::{Items, Written, places};
use std::io;
use turns::turn_list;

fn turned(rt: &impl Print, depth: u32, list: &[u32], turns: u32, room: usize) -> io::Result<()> {
    let mut space = [0u32; 2];
    let out = places(&mut space, room);
    let answer = turn_list(depth, list, turns, out);
    let room = out.len();
    println!(rt;
        "turn {depth} {} {turns} room {room}: {}",
        Items(list),
        Written(answer, out)
    )
}

fn cells_of_depth_1(rt: &impl Print) -> io::Result<()> {
    // r0 at depth 1 comes to r1, r3 and r2; r0 and r2 to r0 and r1
    turned(rt, 1, &[8], 1, 1)?;
    turned(rt, 1, &[8], 2, 1)?;
    turned(rt, 1, &[8], 3, 1)?;
    turned(rt, 1, &[8, 10], 1, 2)
}

fn one_voxel(rt: &impl Print) -> io::Result<()> {
    // r057 stands at 3, 1, 3; turned it is r176 at 6, 3, 3, then r364 at 4, 6, 3, then r245 at 1, 4, 3
    turned(rt, 3, &[559], 0, 1)?;
    turned(rt, 3, &[559], 1, 1)?;
    turned(rt, 3, &[559], 2, 1)?;
    turned(rt, 3, &[559], 3, 1)
}

fn whole_colours(rt: &impl Print) -> io::Result<()> {
    // the empty list, and the root
    turned(rt, 3, &[], 1, 0)?;
    turned(rt, 3, &[1], 1, 1)
}

fn refused(rt: &impl Print) -> io::Result<()> {
    // in the order of the tests, what comes later being at fault too: the depth, each fault of a list, a turn number above 3; two leaves do not fit one place
    turned(rt, 11, &[7], 4, 0)?;
    turned(rt, 3, &[7], 4, 0)?;
    turned(rt, 3, &[559, 559], 4, 0)?;
    turned(rt, 1, &[8, 9, 10, 11, 12, 13, 14, 15], 4, 0)?;
    turned(rt, 3, &[559], 4, 0)?;
    turned(rt, 3, &[559, 1023], 1, 1)
}

pub fn run(rt: &impl Print) -> io::Result<()> {
    cells_of_depth_1(rt)?;
    one_voxel(rt)?;
    whole_colours(rt)?;
    refused(rt)
}
