// The leaves of a list that meet a neighbour cell: `met` gives them, `met_at` tells where they begin.
ghost use Rattle.std.specs.Prelude.{◌≡◌, true, ◌-◌, ◌≤◌, IfOk};
ghost use Rattle.cells.specs.Answer.{deepest};
ghost use Rattle.cells.specs.Cell.{proper};
ghost use Rattle.cells.specs.Place.{axes};
ghost use Rattle.cells.specs.Refusals.{answer_of};
ghost use Rattle.records.specs.Record.{Ordered};
ghost use Rattle.records.specs.Met.{MetPart, meeting_of, MeetingOf, MetOf, MetAtOf};

use crate::checks::check;
use crate::inner::{first_from, last_reaches};
use cells::inner::{first, width};
use cells::{Refusal, neighbour};
use std::ops::Range;

// Where the leaves of a list stand that meet the cell of code m: those that start in it, and the one before them if it reaches into the cell.
fn part(depth: u32, list: &[u32], m: u32) -> Range<usize>
    requires { (depth ≤ deepest) × Ordered depth 0 list.now × (proper depth m ≡ true) }
    ensures { (result.start ≤ result.end) × MetPart depth list.now m result.start (result.end - result.start) }
{
    let from = first(depth, m);
    let n = list.len();
    let at = first_from(depth, list, from, 0, n);
    let end = first_from(depth, list, from + width(depth, m), at, n);
    if last_reaches(depth, list, at, from) {
        return at - 1..end;
    }
    at..end
}

// The neighbour, and the leaves that meet it: refused as `check` is, then as `neighbour` is.
fn find(
    depth: u32,
    list: &[u32],
    code: u32,
    dx: i32,
    dy: i32,
    dz: i32,
) -> Result<Range<usize>, Refusal>
    ensures rises { IfOk result (λ r. r.start ≤ r.end) }
    ensures meeting { MeetingOf depth list.now code (axes dx dy dz) (meeting_of result) }
{
    check(depth, list)?;
    match neighbour(depth, code, dx, dy, dz) {
        Ok(next) => Ok(part(depth, list, next)),
        Err(refusal) => Err(refusal),
    }
}

// All leaves that share a voxel with the neighbour cell, as a part of the caller's own list. In every refused case it is the empty part at the list's beginning.
pub fn met(depth: u32, list: &[u32], code: u32, dx: i32, dy: i32, dz: i32) -> &[u32]
    ensures { MetOf depth list.now list.entry.ref_ptr code (axes dx dy dz) result.now result.ref_ptr }
{
    let found = find(depth, list, code, dx, dy, dz).unwrap_or(0..0);
    &list[found.start..found.end]
}

// The index where that part begins.
pub fn met_at(
    depth: u32,
    list: &[u32],
    code: u32,
    dx: i32,
    dy: i32,
    dz: i32,
) -> Result<usize, Refusal>
    ensures { MetAtOf depth list.now code (axes dx dy dz) (answer_of result) }
{
    let found = find(depth, list, code, dx, dy, dz)?;
    Ok(found.start)
}
