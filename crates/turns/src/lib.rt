// Quarter turns of a list about the root's vertical axis: ticket 4 of document 02. A host calls `turn_list`; `inner` is the descent under it.
#![tactic(auto)]

mod inner;

ghost use Rattle.cells.specs.Refusals.{answer_of};
ghost use Rattle.turns.specs.Turns.{TurnOf};

use crate::inner::turn_root;
use cells::Refusal;
use records::check;

// The greatest turn number: a fourth turn would bring the list back.
const MOST_TURNS: u32 = 3;

// The list after 0 to 3 quarter turns, at the front of `out`, and its number of leaves, which is the list's own. One turn takes the voxel (x, y, z) to
// (2^D - 1 - y, x, z). Refused as `check` is, then 6 with place 1 for a turn number above 3, 8 with the leaves needed; `out` then stays as it is.
pub fn turn_list(depth: u32, list: &[u32], turns: u32, out: &mut [u32]) -> Result<usize, Refusal>
    ensures { TurnOf depth list.now turns out.old (answer_of result) out.new }
{
    let need = check(depth, list)?;
    if MOST_TURNS < turns {
        return Err(Refusal::NoTurn);
    }
    if out.len() < need {
        return Err(Refusal::TooShort(need));
    }
    Ok(turn_root(depth, list, turns, out))
}
