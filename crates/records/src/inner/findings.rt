// INNER: what a lookup tells by the numbers of the table, in a list or in bits.
ghost use Rattle.std.specs.Prelude.{◌≡◌};
ghost use Rattle.records.specs.Lookups.{lookup_answer};

use crate::Finding;
use cells::{Answer, Refusal};

// The answer, 1 or 0 for black or white, and the level beside it, which is 0 in a refusal.
pub fn told(found: Result<Finding, Refusal>) -> (Answer, u32)
    ensures { result ≡ ((lookup_answer found).answer, (lookup_answer found).level) }
{
    match found {
        Ok(seen) => (Answer::success(u64::from(seen.black)), seen.level),
        Err(refusal) => (Answer::from(refusal), 0),
    }
}
