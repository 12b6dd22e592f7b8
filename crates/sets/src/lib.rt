// Join, intersection and difference of two lists: document 01, "Lists".
// A host calls `join`, `intersect` and `subtract`; `inner` is the sweep under them.
#![tactic(auto)]

ghost use Rattle.cells.specs.Refusals.{answer_of};
ghost use Rattle.sets.specs.Sets.{SetOf};
ghost use Rattle.sets.specs.declared.Op.TheVariants.{Join, Intersect, Subtract};

use crate::inner::combine;
use cells::{DEEPEST, Refusal};
use records::inner::judged;
use std::fmt;

pub mod inner;

// Which voxels of two lists a result has: those in either, those in both, those in the first but not in the second.
#[derive(Clone, Copy)]
pub enum Op {
    Join,
    Intersect,
    Subtract,
}

// The call's name.
impl fmt::Display for Op {
    fn fmt<W: fmt::Write>(&self, f: &mut fmt::Formatter<W>) -> fmt::Result {
        f.write_str(match self {
            Op::Join => "join",
            Op::Intersect => "intersect",
            Op::Subtract => "subtract",
        })
    }
}

// The tests of the depth and of both lists, the first list before the second, and then the sweep.
fn set_of(op: Op, depth: u32, a: &[u32], b: &[u32], out: &mut [u32]) -> Result<usize, Refusal>
    ensures { SetOf op depth a.now b.now out.old (answer_of result) out.new }
{
    if DEEPEST < depth {
        return Err(Refusal::Depth);
    }
    judged(depth, a, 1)?;
    judged(depth, b, 2)?;
    combine(op, depth, a, b, out)
}

// The good list of the voxels black in either list.
pub fn join(depth: u32, a: &[u32], b: &[u32], out: &mut [u32]) -> Result<usize, Refusal>
    ensures { SetOf Join depth a.now b.now out.old (answer_of result) out.new }
{
    set_of(Op::Join, depth, a, b, out)
}

// The good list of the voxels black in both lists.
pub fn intersect(depth: u32, a: &[u32], b: &[u32], out: &mut [u32]) -> Result<usize, Refusal>
    ensures { SetOf Intersect depth a.now b.now out.old (answer_of result) out.new }
{
    set_of(Op::Intersect, depth, a, b, out)
}

// The good list of the voxels black in the first list but not in the second.
pub fn subtract(depth: u32, a: &[u32], b: &[u32], out: &mut [u32]) -> Result<usize, Refusal>
    ensures { SetOf Subtract depth a.now b.now out.old (answer_of result) out.new }
{
    set_of(Op::Subtract, depth, a, b, out)
}
