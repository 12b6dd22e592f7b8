// INNER: what the reader tells by the numbers of the table.
ghost use Rattle.std.specs.Prelude.{◌≡◌};
ghost use Rattle.blocks.specs.Calls.{read_answer};

use crate::Reading;
use cells::{Answer, Refusal};

// The answer, and the depth beside it, which is 0 in a refusal.
pub fn told(found: Result<Reading, Refusal>) -> (Answer, u32)
    ensures { result ≡ ((read_answer found).answer, (read_answer found).depth) }
{
    match found {
        Ok(read) => (Answer::success(read.leaves as u64), read.depth),
        Err(refusal) => (Answer::from(refusal), 0),
    }
}
