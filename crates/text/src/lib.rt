// The bytes of a listing: document 01, "Listing program".
// A host calls `list_text` and `refused_text`; `inner` is for the crates above.
#![tactic(auto)]

pub mod inner;

ghost use Rattle.cells.specs.Refusals.{answer_of};
ghost use Rattle.text.specs.Text.{TextOf, RefusedOf};

use crate::inner::lines::{put_listing, put_refused};
use cells::Refusal;
use records::volume;

// The bytes of a number of 64 bits in decimal, of the labels of a code, of the first line ("depth ", " leaves " and " volume ", a number after each, and the line's
// end) and of a path (r, the labels and the line's end) at most.
const LONGEST_NUMBER: usize = 20;

const LONGEST_LABELS: usize = 10;

pub const LONGEST_HEAD: usize = 6 + 8 + 8 + 3 * LONGEST_NUMBER + 1;

pub const LONGEST_PATH: usize = 1 + LONGEST_LABELS + 1;

// The listing of a good list at the front of `bytes`: refused for the depth, the list, and where `bytes` is too short.
pub fn list_text(depth: u32, list: &[u32], bytes: &mut [u8]) -> Result<usize, Refusal>
    ensures { TextOf depth list.now bytes.old (answer_of result) bytes.new }
{
    let voxels = volume(depth, list)? as u64;
    let need = put_listing(depth, list, voxels, &mut bytes[..0]);
    if bytes.len() < need {
        return Err(Refusal::TooShort(need));
    }
    put_listing(depth, list, voxels, &mut bytes[..need]);
    Ok(need)
}

// The line that tells a refusal by its number and place, at the front of `bytes`: refused where `bytes` is too short.
pub fn refused_text(number: u32, place: u64, bytes: &mut [u8]) -> Result<usize, Refusal>
    ensures { RefusedOf number place bytes.old (answer_of result) bytes.new }
{
    let need = put_refused(number, place, &mut bytes[..0]);
    if bytes.len() < need {
        return Err(Refusal::TooShort(need));
    }
    put_refused(number, place, &mut bytes[..need]);
    Ok(need)
}
