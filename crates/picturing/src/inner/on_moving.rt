// Moves of bits in whole voxels and in metres, each with so much room for its result, which holds ones before the call.
use metres::{Metres, Move};
use plain::move_bits;
use printing::inner::print::{Items, Written, places};
use std::io;

fn whole(
    rt: &impl Print,
    depth: u32,
    bits: &[u8],
    dx: i32,
    dy: i32,
    dz: i32,
    room: usize,
) -> io::Result<()> {
    let mut space = [255u8; 8];
    let out = places(&mut space, room);
    let answer = move_bits(depth, bits, Move::Voxels(dx, dy, dz), out);
    let room = out.len();
    println!(rt;
        "move_bits {depth} {} {dx} {dy} {dz} room {room}: {}",
        Items(bits),
        Written(answer, out)
    )
}

// In metres, under a name: the first voxel, and where it goes.
fn in_metres(rt: &impl Print, depth: u32, name: &str, d: Metres, room: usize) -> io::Result<()> {
    let mut space = [255u8; 1];
    let out = places(&mut space, room);
    let answer = move_bits(depth, &[1], Move::Metres(d), out);
    let room = out.len();
    println!(rt;
        "move_bits {depth} [1] metres {name} {} room {room}: {}",
        d.s,
        Written(answer, out)
    )
}

fn accepted(rt: &impl Print) -> io::Result<()> {
    // at depth 1 a step along x, y and z from voxel 0 leads to voxels 1, 2 and 4
    whole(rt, 1, &[1], 1, 0, 0, 1)?;
    whole(rt, 1, &[1], 0, 1, 0, 1)?;
    whole(rt, 1, &[1], 0, 0, 1, 1)?;
    whole(rt, 1, &[128], -1, -1, -1, 1)?;
    // r0 by x +1 at depth 2, and back
    whole(rt, 2, &[255, 0, 0, 0, 0, 0, 0, 0], 1, 0, 0, 8)?;
    whole(rt, 2, &[170, 85, 0, 0, 0, 0, 0, 0], -1, 0, 0, 8)?;
    // no black voxel: every whole move is taken; at depth 0 the spare bits are not read, and are written 0
    whole(rt, 1, &[0], -2147483648, 0, 0, 1)?;
    whole(rt, 0, &[255], 0, 0, 0, 1)?;
    whole(rt, 0, &[254], 1, 0, 0, 1)
}

fn refused(rt: &impl Print) -> io::Result<()> {
    // the first voxel that leaves, by its number
    whole(rt, 1, &[6], 1, 0, 0, 1)?;
    whole(rt, 1, &[6], 0, 1, 0, 1)?;
    whole(rt, 2, &[255, 255, 0, 0, 0, 0, 0, 0], 1, 0, 0, 8)?;
    // the depth; and, before a voxel that leaves, the bytes needed
    whole(rt, 7, &[], 1, 0, 0, 0)?;
    whole(rt, 2, &[6], 1, 0, 0, 8)?;
    whole(rt, 1, &[6], 1, 0, 0, 0)
}

fn displacement(x: f64, y: f64, z: f64, s: u32) -> Metres {
    Metres { x, y, z, s }
}

fn rounded(rt: &impl Print) -> io::Result<()> {
    // a half goes away from zero, and one step down leaves the root; the bytes needed come before that
    in_metres(rt, 1, "0.0625", displacement(0.0625, 0.0, 0.0, 3), 1)?;
    in_metres(rt, 1, "-0.0625", displacement(-0.0625, 0.0, 0.0, 3), 1)?;
    in_metres(rt, 1, "-0.0625", displacement(-0.0625, 0.0, 0.0, 3), 0)
}

fn no_numbers(rt: &impl Print) -> io::Result<()> {
    // in the order of the tests, what comes later being at fault too: the depth, the edge number, each coordinate; all come before the bytes needed
    let far = 1e308 * 10.0;
    let no_edge = displacement(far, far, far, 11);
    in_metres(rt, 7, "infinity", no_edge, 0)?;
    in_metres(rt, 1, "infinity", no_edge, 0)?;
    in_metres(rt, 1, "infinity", displacement(far, far, far, 3), 0)?;
    in_metres(
        rt,
        1,
        "infinity along y and z",
        displacement(0.0, far, far, 3),
        0,
    )?;
    in_metres(rt, 1, "infinity along z", displacement(0.0, 0.0, far, 3), 0)
}

pub fn run(rt: &impl Print) -> io::Result<()> {
    accepted(rt)?;
    refused(rt)?;
    rounded(rt)?;
    no_numbers(rt)
}
