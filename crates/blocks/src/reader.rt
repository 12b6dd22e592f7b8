// The reader: the list that a stored file holds.
ghost use Rattle.std.specs.Prelude.{◌≡◌, ◌≤◌, length};
ghost use Rattle.records.specs.Writing.{stands};
ghost use Rattle.blocks.specs.Block.{codes};
ghost use Rattle.blocks.specs.Inner.{Sound};
ghost use Rattle.blocks.specs.Calls.{read_answer, ReadOf};

use crate::Reading;
use crate::inner::held::holding_of;
use crate::inner::words::code_at;
use cells::Refusal;

// The n codes of a sound file, at the front of `out`.
fn copy(bytes: &[u8], n: usize, out: &mut [u32])
    requires { Sound bytes.now × (n ≡ length (codes bytes.now)) × (n ≤ length out.old) }
    ensures { out.new ≡ stands (codes bytes.now) out.old }
{
    for i in 0..n {
        out[i] = code_at(bytes, i);
    }
}

// The list of a stored file to the front of `out`: refused for the blocks, the list, and where `out` is too short.
pub fn read(bytes: &[u8], out: &mut [u32]) -> Result<Reading, Refusal>
    ensures { ReadOf bytes.now out.old (read_answer result) out.new }
{
    let held = holding_of(bytes)?;
    let n = held.leaves;
    if out.len() < n {
        return Err(Refusal::TooShort(n));
    }
    copy(bytes, n, out);
    Ok(Reading {
        leaves: n,
        depth: held.depth,
    })
}
