// Join, intersection and difference, each with so much room for its result.
use crate::inner::print::{Items, Written, places, told};
use cells::Refusal;
use sets::Op;
use std::io;

fn call(op: Op, depth: u32, a: &[u32], b: &[u32], out: &mut [u32]) -> Result<usize, Refusal> {
    match op {
        Op::Join => sets::join(depth, a, b, out),
        Op::Intersect => sets::intersect(depth, a, b, out),
        Op::Subtract => sets::subtract(depth, a, b, out),
    }
}

// The call's inputs and its answer, the codes at the front of its buffer, and the volume of the room, where its codes fill it.
fn made(rt: &impl Print, op: Op, depth: u32, a: &[u32], b: &[u32], room: usize) -> io::Result<()> {
    let mut space = [0u32; 32];
    let out = places(&mut space, room);
    let answer = call(op, depth, a, b, out);
    let volume = told(records::volume(depth, out));
    println!(rt;
        "{op} {depth} {} {} room {room}: {} volume of the room: {volume}",
        Items(a),
        Items(b),
        Written(answer, out)
    )
}

fn published(rt: &impl Print) -> io::Result<()> {
    // codes 8 to 11 joined with 12 to 15 give the root; one place suffices, none does not
    made(rt, Op::Join, 1, &[8, 9, 10, 11], &[12, 13, 14, 15], 1)?;
    made(rt, Op::Join, 1, &[8, 9, 10, 11], &[12, 13, 14, 15], 0)?;
    // r less r057 has 21 leaves and volume 511; 20 places are one short, and hold what they held: 0, which is no code
    made(rt, Op::Subtract, 3, &[1], &[559], 21)?;
    made(rt, Op::Subtract, 3, &[1], &[559], 20)
}

fn levels_and_refusals(rt: &impl Print) -> io::Result<()> {
    // a join that completes eight siblings on two levels
    made(
        rt,
        Op::Join,
        2,
        &[64, 65, 66, 67, 9, 10, 11, 12, 13, 14, 15],
        &[68, 69, 70, 71],
        1,
    )?;
    made(rt, Op::Intersect, 3, &[1], &[559], 1)?;
    made(rt, Op::Intersect, 3, &[558], &[559], 0)?;
    // refusals: the depth, the first list before the second
    made(rt, Op::Join, 11, &[0], &[0], 4)?;
    made(rt, Op::Join, 3, &[0], &[2], 4)?;
    made(rt, Op::Join, 3, &[559], &[559, 559], 4)
}

pub fn run(rt: &impl Print) -> io::Result<()> {
    published(rt)?;
    levels_and_refusals(rt)
}
