// DF text, the depth-first form of document 002: ticket 1 of document 02.
// A host calls `df_read` and `df_write`; `inner` is the two descents under them.
#![tactic(auto)]

mod inner;

ghost use Rattle.cells.specs.Refusals.{answer_of};
ghost use Rattle.df.specs.Df.{DfReadOf, DfWriteOf};

use crate::inner::reading::read_text;
use crate::inner::spelling::put_text;
use cells::{DEEPEST, Refusal};
use records::check;

// The good list of the voxels that a text has black, at the front of `out`, and its number of leaves: refused for the depth, with the first wrong byte, and with
// the leaves needed; `out` then stays as it is.
pub fn df_read(depth: u32, text: &[u8], out: &mut [u32]) -> Result<usize, Refusal>
    ensures { DfReadOf depth text.now out.old (answer_of result) out.new }
{
    if DEEPEST < depth {
        return Err(Refusal::Depth);
    }
    let need = match read_text(depth, text, &mut out[..0]) {
        Ok(leaves) => leaves,
        Err(wrong) => return Err(wrong),
    };
    if out.len() < need {
        return Err(Refusal::TooShort(need));
    }
    read_text(depth, text, out)
}

// The text of a good list, at the front of `bytes`, and its number of bytes: refused for the depth, the list, and with the bytes needed; `bytes` then stays as
// it is.
pub fn df_write(depth: u32, list: &[u32], bytes: &mut [u8]) -> Result<usize, Refusal>
    ensures { DfWriteOf depth list.now bytes.old (answer_of result) bytes.new }
{
    check(depth, list)?;
    let need = put_text(depth, list, &mut bytes[..0]);
    if bytes.len() < need {
        return Err(Refusal::TooShort(need));
    }
    put_text(depth, list, &mut bytes[..need]);
    Ok(need)
}
