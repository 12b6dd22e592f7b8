// Lists: check, volume, lookup, leaves met.
use crate::inner::print::{Items, Seen, told};
use std::io;

fn check(rt: &impl Print, depth: u32, list: &[u32]) -> io::Result<()> {
    let answer = told(records::check(depth, list));
    println!(rt; "check {depth} {}: {answer}", Items(list))
}

fn volume(rt: &impl Print, depth: u32, list: &[u32]) -> io::Result<()> {
    let answer = told(records::volume(depth, list));
    println!(rt; "volume {depth} {}: {answer}", Items(list))
}

pub fn lookup(rt: &impl Print, depth: u32, list: &[u32], x: u32, y: u32, z: u32) -> io::Result<()> {
    let seen = Seen(records::lookup(depth, list, x, y, z));
    println!(rt; "lookup {depth} {} {x} {y} {z}: {seen}", Items(list))
}

fn meet_neighbour(
    rt: &impl Print,
    depth: u32,
    list: &[u32],
    code: u32,
    dx: i32,
    dy: i32,
    dz: i32,
) -> io::Result<()> {
    let answer = told(records::met_at(depth, list, code, dx, dy, dz));
    let leaves = Items(records::met(depth, list, code, dx, dy, dz));
    println!(rt;
        "met {depth} {} {code} {dx} {dy} {dz}: {answer} {leaves}",
        Items(list)
    )
}

fn checked_lists(rt: &impl Print) -> io::Result<()> {
    // the empty list is good, and so is the list of r alone
    check(rt, 3, &[])?;
    check(rt, 3, &[1])?;
    // eight siblings; r07 comes before r1; a number that is no code; a leaf twice; a depth
    check(rt, 1, &[8, 9, 10, 11, 12, 13, 14, 15])?;
    check(rt, 2, &[71, 9])?;
    check(rt, 2, &[9, 71])?;
    check(rt, 2, &[71, 9, 7])?;
    check(rt, 2, &[71, 71])?;
    check(rt, 11, &[7])
}

fn volumes(rt: &impl Print) -> io::Result<()> {
    // a voxel, the root, and a list that is refused
    volume(rt, 3, &[559])?;
    volume(rt, 3, &[1])?;
    volume(rt, 3, &[])?;
    volume(rt, 3, &[0])
}

fn voxels(rt: &impl Print) -> io::Result<()> {
    // r057 stands at 3, 1, 3; r053 at 3, 1, 2 is white, and r05 is not all white; where all is of one colour the cell is the root, of level 0
    lookup(rt, 3, &[559], 3, 1, 3)?;
    lookup(rt, 3, &[559], 3, 1, 2)?;
    lookup(rt, 3, &[], 3, 1, 2)?;
    lookup(rt, 3, &[1], 3, 1, 2)?;
    // refused, with level 0, in the order of the tests, what comes later being at fault too: the depth, a list, a voxel outside the root
    lookup(rt, 11, &[0], 2048, 0, 0)?;
    lookup(rt, 3, &[0], 8, 0, 0)?;
    lookup(rt, 3, &[559, 559], 8, 0, 0)?;
    lookup(rt, 3, &[559], 8, 0, 0)
}

fn leaves_met(rt: &impl Print) -> io::Result<()> {
    // beside r055 along y stands r057; beside r0 along x stands r1: a bigger leaf, the leaves within, none
    meet_neighbour(rt, 3, &[559], 557, 0, 1, 0)?;
    meet_neighbour(rt, 3, &[1], 8, 1, 0, 0)?;
    meet_neighbour(rt, 3, &[71, 72, 79, 10], 8, 1, 0, 0)?;
    meet_neighbour(rt, 3, &[71, 10], 8, 1, 0, 0)?;
    meet_neighbour(rt, 3, &[71, 10], 8, -1, 0, 0)?;
    meet_neighbour(rt, 3, &[71, 10], 8, 0, 0, 0)
}

pub fn run(rt: &impl Print) -> io::Result<()> {
    checked_lists(rt)?;
    volumes(rt)?;
    voxels(rt)?;
    leaves_met(rt)
}
