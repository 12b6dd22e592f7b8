// A voxel looked up in a list: its colour, and the level of the largest cell of that colour that holds it.
ghost use Rattle.std.specs.Prelude.{◌≡◌, true, ◌≤◌, ◌<◌, ◌^◌};
ghost use Rattle.cells.specs.Answer.{deepest};
ghost use Rattle.records.specs.Record.{black, Good};
ghost use Rattle.records.specs.Lookups.{Largest, seen, SeenIn, lookup_answer, LookupOf};
ghost use Rattle.records.specs.Gap.{Gap, Free};

use crate::checks::check;
use crate::inner::{first_from, in_root, last_reaches};
use cells::Refusal;
use cells::inner::{first, level_of, number_of, part_at, width};

// What is told of a voxel: its colour, and the level of the largest cell of that colour that holds it.
#[derive(Clone, Copy, PartialEq, Eq, Debug)]
pub struct Finding {
    pub black: bool,
    pub level: u32,
}

// How many levels the white cell of voxel v can have below it, by the leaf before place `at`: it must not hold the last voxel of that leaf.
fn levels_behind(depth: u32, list: &[u32], at: usize, v: u32) -> u32
    requires { Gap depth list.now v at }
    ensures { Free depth v result (λ u. (black depth list.now u ≡ true) × (u < v)) }
{
    if at == 0 {
        return depth;
    }
    let c = list[at - 1];
    let past = first(depth, c) + width(depth, c);
    part_at(v, past - 1)
}

// The same by the leaf at that place: it must not hold the first voxel of that leaf.
fn levels_ahead(depth: u32, list: &[u32], at: usize, v: u32) -> u32
    requires { Gap depth list.now v at }
    ensures { Free depth v result (λ u. (black depth list.now u ≡ true) × (v < u)) }
{
    if list.len() <= at {
        return depth;
    }
    part_at(v, first(depth, list[at]))
}

// The level of the largest white cell that holds voxel v: both leaves bound it.
fn white_level(depth: u32, list: &[u32], at: usize, v: u32) -> u32
    requires { Gap depth list.now v at }
    ensures { Largest depth (black depth list.now) v result }
{
    let behind = levels_behind(depth, list, at, v);
    let ahead = levels_ahead(depth, list, at, v);
    if behind < ahead {
        return depth - behind;
    }
    depth - ahead
}

// What is told of voxel v. Of the leaves that start at it or before it only the last can hold it, and that leaf is then its cell; else it lies between that
// leaf and the next.
fn look_at(depth: u32, list: &[u32], v: u32) -> Finding
    requires { (depth ≤ deepest) × Good depth list.now × (v < 8 ^ depth) }
    ensures { SeenIn depth (black depth list.now) v (seen result.black result.level) }
{
    let after = first_from(depth, list, v + 1, 0, list.len());
    if last_reaches(depth, list, after, v) {
        let level = level_of(depth, list[after - 1]);
        return Finding { black: true, level };
    }
    let level = white_level(depth, list, after, v);
    Finding {
        black: false,
        level,
    }
}

// The colour of the voxel x, y, z and the level of its cell; refused as `check` is, then for a voxel outside the root.
pub fn lookup(depth: u32, list: &[u32], x: u32, y: u32, z: u32) -> Result<Finding, Refusal>
    ensures { LookupOf depth list.now x y z (lookup_answer result) }
{
    check(depth, list)?;
    if !in_root(depth, x, y, z) {
        return Err(Refusal::NoVoxel);
    }
    Ok(look_at(depth, list, number_of(depth, x, y, z)))
}
