// INNER: the list that a file holds, judged where it stands among the bytes, and what is told of it.
ghost use Rattle.std.specs.Prelude.{◌≡◌, length};
ghost use Rattle.records.specs.Walk.{Walked};
ghost use Rattle.blocks.specs.Block.{depth_of, codes};
ghost use Rattle.blocks.specs.Inner.{Sound, answered, HoldingOf};

use crate::checker::check_blocks;
use crate::inner::words::{code_at, word_at};
use cells::Refusal;
use records::inner::{Stop, Walk, walk_along};

// A walk along the n codes of a sound file.
pub fn judge_stored(depth: u32, bytes: &[u8], n: usize) -> Result<Walk, Stop>
    requires { Sound bytes.now × (depth ≡ depth_of bytes.now) × (n ≡ length (codes bytes.now)) }
    ensures { Walked depth (codes bytes.now) (length (codes bytes.now)) result }
{
    walk_along(depth, n, |j| code_at(bytes, j))
}

// What a file holds: the number of its leaves, its depth and its leaves' voxels.
#[derive(Clone, Copy)]
pub struct Holding {
    pub leaves: usize,
    pub depth: u32,
    pub voxels: u32,
}

// The file judged: refused for its blocks, and for the first fault of the list that they hold.
pub fn holding_of(bytes: &[u8]) -> Result<Holding, Refusal>
    ensures { HoldingOf bytes.now (answered result) }
{
    let leaves = match check_blocks(bytes) {
        Ok(leaves) => leaves,
        Err(refusal) => return Err(refusal),
    };
    let depth = word_at(bytes, 0, 2);
    match judge_stored(depth, bytes, leaves) {
        Ok(walk) => Ok(Holding {
            leaves,
            depth,
            voxels: walk.sum,
        }),
        Err(stop) => Err(stop.of_list(1)),
    }
}
