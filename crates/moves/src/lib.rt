// Moves: document 01, "Moves". A host calls `move_list`; `inner` is the acceptance and the shift back under it.
#![tactic(auto)]

ghost use Rattle.std.specs.Prelude.{◌≤◌};
ghost use Rattle.cells.specs.Answer.{deepest};
ghost use Rattle.cells.specs.Place.{axes};
ghost use Rattle.cells.specs.Refusals.{answer_of};
ghost use Rattle.records.specs.Record.{Ordered};
ghost use Rattle.moves.specs.Moves.{ShiftOf, MoveOf};

use crate::inner::Displacement;
use cells::Refusal;
use metres::Move;
use metres::inner::{Steps, in_voxels};
use records::check;
use shifts::inner::descent::shift_list;

pub mod inner;

// The list moved by whole voxels, at the front of `out`: refused with the first leaf that strays from the root, and where the result does not fit; `out` then
// stays as it is.
fn move_whole(depth: u32, list: &[u32], by: Steps, out: &mut [u32]) -> Result<usize, Refusal>
    requires { (depth ≤ deepest) × Ordered depth 0 list.now }
    ensures { ShiftOf depth list.now (axes by.x by.y by.z) out.old (answer_of result, out.new) }
{
    let d = Displacement::from(by);
    if let Some(i) = d.first_stray(depth, list) {
        return Err(Refusal::Strays(i, 1));
    }
    let w = d.backwards(depth);
    let need = shift_list(depth, list, w, &mut out[..0]);
    if out.len() < need {
        return Err(Refusal::TooShort(need));
    }
    Ok(shift_list(depth, list, w, out))
}

// The good list of the displaced voxels, at the front of `out`, and its number of leaves. Refused as `check` is, then for a move in metres that is no whole
// move, with the first leaf that strays from the root, and with the leaves needed; `out` then stays as it is.
pub fn move_list(depth: u32, list: &[u32], m: Move, out: &mut [u32]) -> Result<usize, Refusal>
    ensures { MoveOf depth list.now m out.old (answer_of result) out.new }
{
    check(depth, list)?;
    match in_voxels(m) {
        Ok(by) => move_whole(depth, list, by, out),
        Err(bad) => Err(Refusal::NoMove(bad)),
    }
}
