// A list to bits, and bits to a list, each with so much room for its result. A buffer for bits holds ones before the call, so that each 0 in it was written.
use plain::{to_bits, to_list};
use printing::inner::print::{Items, Written, places};
use std::io;

fn painted(rt: &impl Print, depth: u32, list: &[u32], room: usize) -> io::Result<()> {
    let mut space = [255u8; 8];
    let out = places(&mut space, room);
    let answer = to_bits(depth, list, out);
    let room = out.len();
    println!(rt;
        "to_bits {depth} {} room {room}: {}",
        Items(list),
        Written(answer, out)
    )
}

fn gathered(rt: &impl Print, depth: u32, bits: &[u8], room: usize) -> io::Result<()> {
    let mut space = [0u32; 2];
    let out = places(&mut space, room);
    let answer = to_list(depth, bits, out);
    let room = out.len();
    println!(rt;
        "to_list {depth} {} room {room}: {}",
        Items(bits),
        Written(answer, out)
    )
}

fn lists(rt: &impl Print) -> io::Result<()> {
    // r0 is bit 0 and r3 bit 3; at depth 2 r0 is the first byte, and r17 bit 7 of the second; at depth 0 the seven spare bits are written 0
    painted(rt, 1, &[8, 11], 1)?;
    painted(rt, 2, &[8, 79], 8)?;
    painted(rt, 0, &[1], 1)?;
    painted(rt, 0, &[], 1)
}

fn refused_lists(rt: &impl Print) -> io::Result<()> {
    // in the order of the tests, what comes later being at fault too: the depth, each fault of a list; then a byte too few
    painted(rt, 7, &[7], 0)?;
    painted(rt, 1, &[7], 0)?;
    painted(rt, 1, &[8, 8], 0)?;
    painted(rt, 1, &[8, 9, 10, 11, 12, 13, 14, 15], 0)?;
    painted(rt, 2, &[8, 79], 7)?;
    painted(rt, 0, &[1], 0)?;
    // at depth 6 there are 32 KiB of bits
    painted(rt, 6, &[1], 8)
}

fn bits(rt: &impl Print) -> io::Result<()> {
    // the same bits back; eight siblings are the root; at depth 0 the spare bits are not read
    gathered(rt, 1, &[9], 2)?;
    gathered(rt, 2, &[255, 128, 0, 0, 0, 0, 0, 0], 2)?;
    gathered(rt, 1, &[255], 1)?;
    gathered(rt, 0, &[255], 1)?;
    gathered(rt, 0, &[254], 0)
}

fn refused_bits(rt: &impl Print) -> io::Result<()> {
    // the depth; then the bytes that the bits need, before the leaves that the list needs
    gathered(rt, 7, &[], 0)?;
    gathered(rt, 2, &[255, 128, 0, 0, 0, 0, 0], 1)?;
    gathered(rt, 2, &[255, 128, 0, 0, 0, 0, 0, 0], 1)
}

pub fn run(rt: &impl Print) -> io::Result<()> {
    lists(rt)?;
    refused_lists(rt)?;
    bits(rt)?;
    refused_bits(rt)
}
