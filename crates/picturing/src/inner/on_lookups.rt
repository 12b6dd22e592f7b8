// Voxels looked up in bits, and in a list and its bits: the two engines tell the same.
use plain::lookup_bits;
use printing::inner::on_records::lookup;
use printing::inner::print::{Items, Seen};
use std::io;

fn looked_up(rt: &impl Print, depth: u32, bits: &[u8], x: u32, y: u32, z: u32) -> io::Result<()> {
    let seen = Seen(lookup_bits(depth, bits, x, y, z));
    println!(rt; "lookup_bits {depth} {} {x} {y} {z}: {seen}", Items(bits))
}

// A voxel of [r1, r20, r47] at depth 2: in the list, then in its bits.
fn in_both(rt: &impl Print, x: u32, y: u32, z: u32) -> io::Result<()> {
    lookup(rt, 2, &[9, 80, 103], x, y, z)?;
    looked_up(rt, 2, &[0, 255, 1, 0, 128, 0, 0, 0], x, y, z)
}

fn found(rt: &impl Print) -> io::Result<()> {
    // r3 is black and r1 white; r17 at depth 2 stands at 3, 1, 1; at depth 0 the spare bits are not read
    looked_up(rt, 1, &[9], 1, 1, 0)?;
    looked_up(rt, 1, &[9], 1, 0, 0)?;
    looked_up(rt, 2, &[0, 128, 0, 0, 0, 0, 0, 0], 3, 1, 1)?;
    looked_up(rt, 0, &[254], 0, 0, 0)?;
    looked_up(rt, 0, &[255], 0, 0, 0)
}

fn found_in_both(rt: &impl Print) -> io::Result<()> {
    // r10 and r17, two voxels of the leaf r1
    in_both(rt, 2, 0, 0)?;
    in_both(rt, 3, 1, 1)?;
    // r00 before all leaves lies in r0, which is all white, and r77 after all in r7
    in_both(rt, 0, 0, 0)?;
    in_both(rt, 3, 3, 3)?;
    // between two leaves: r2 has r20, the leaf before r27, and r4 has r47, the leaf after r40, so neither voxel has a larger white cell
    in_both(rt, 1, 3, 1)?;
    in_both(rt, 0, 0, 2)?;
    // r30, between the same two, lies in r3, which is all white
    in_both(rt, 2, 2, 0)
}

fn refused(rt: &impl Print) -> io::Result<()> {
    // in the order of the tests, what comes later being at fault too: the depth, a voxel outside the root; then the bytes needed
    looked_up(rt, 7, &[], 128, 0, 0)?;
    looked_up(rt, 1, &[], 2, 0, 0)?;
    looked_up(rt, 1, &[], 1, 1, 0)?;
    looked_up(rt, 2, &[9], 1, 1, 0)
}

pub fn run(rt: &impl Print) -> io::Result<()> {
    found(rt)?;
    found_in_both(rt)?;
    refused(rt)
}
