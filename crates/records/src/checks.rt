// What is told of a whole list: `check`, `volume`.
ghost use Rattle.cells.specs.Refusals.{answer_of};
ghost use Rattle.records.specs.Calls.{CheckOf, VolumeOf};

use crate::inner::{judge, judged};
use cells::{DEEPEST, Refusal};

// How many leaves a good list has; refused for the depth, and for the list at its first fault.
pub fn check(depth: u32, list: &[u32]) -> Result<usize, Refusal>
    ensures { CheckOf depth list.now (answer_of result) }
{
    if DEEPEST < depth {
        return Err(Refusal::Depth);
    }
    judged(depth, list, 1)
}

// How many voxels are black; refused as `check` is.
pub fn volume(depth: u32, list: &[u32]) -> Result<u32, Refusal>
    ensures { VolumeOf depth list.now (answer_of result) }
{
    if DEEPEST < depth {
        return Err(Refusal::Depth);
    }
    match judge(depth, list) {
        Ok(walk) => Ok(walk.sum),
        Err(stop) => Err(stop.of_list(1)),
    }
}
