// The block check: whether the blocks of a stored file are sound.
ghost use Rattle.cells.specs.Refusals.{answer_of};
ghost use Rattle.blocks.specs.Calls.{BlockCheckOf};

use crate::BLOCK_BYTES;
use crate::inner::soundness::{first_unsound, leaves_of};
use cells::Refusal;

// How many leaves the blocks of a file hold, where they are sound. The leaves themselves are not judged.
pub fn check_blocks(bytes: &[u8]) -> Result<usize, Refusal>
    ensures { BlockCheckOf bytes.now (answer_of result) }
{
    let n = bytes.len() / BLOCK_BYTES;
    if n == 0 {
        return Err(Refusal::BadBlock(0));
    }
    if bytes.len() % BLOCK_BYTES != 0 {
        return Err(Refusal::BadBlock(n));
    }
    match first_unsound(bytes, n) {
        Some(i) => Err(Refusal::BadBlock(i)),
        None => Ok(leaves_of(bytes, n)),
    }
}
