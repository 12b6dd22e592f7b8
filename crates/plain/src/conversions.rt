// A list to bits, and bits to the good list of their voxels.
ghost use Rattle.std.specs.Prelude.{◌≡◌, true, ◌+◌, ◌≤◌, length};
ghost use Rattle.cells.specs.Refusals.{answer_of};
ghost use Rattle.records.specs.Record.{black, Ordered};
ghost use Rattle.records.specs.Inner.{Starts};
ghost use Rattle.emit.specs.Inner.{Result};
ghost use Rattle.plain.specs.Bits.{bytes_for, black_in};
ghost use Rattle.plain.specs.Calls.{deepest_plain, ToBitsOf, ToListOf};
ghost use Rattle.plain.specs.Inner.{Painted};

use crate::DEEPEST_PLAIN;
use crate::inner::bits::{Bits, bytes_for, mark};
use cells::Refusal;
use cells::inner::{first, pow8};
use emit::inner::Emitter;
use records::inner::{judged, last_reaches};

// How many leaves start at voxel v or before it, where `at` start before it.
fn started(depth: u32, list: &[u32], at: usize, v: u32) -> usize
    requires { (depth ≤ deepest_plain) × Ordered depth 0 list.now × Starts depth list.now v 0 (length list.now) at }
    ensures { Starts depth list.now (v + 1) 0 (length list.now) result }
{
    match list.get(at) {
        Some(&code) if first(depth, code) <= v => at + 1,
        _ => at,
    }
}

// The voxels of a list. Of the leaves that start at a voxel or before it, only the last can hold it.
fn paint_list(depth: u32, list: &[u32], bits: &mut [u8])
    requires { (depth ≤ deepest_plain) × Ordered depth 0 list.now × (bytes_for depth ≤ length bits.old) }
    ensures { Painted depth (λ v. black depth list.now v ≡ true) bits.old bits.new }
{
    let mut at: usize = 0;
    for v in 0..pow8(depth) {
        at = started(depth, list, at, v);
        mark(bits, v, last_reaches(depth, list, at, v));
    }
}

// A list as bits, and their bytes: refused for the depth, at the list's first fault, and with the bytes needed; `bits` then stays as it is.
pub fn to_bits(depth: u32, list: &[u32], bits: &mut [u8]) -> Result<usize, Refusal>
    ensures { ToBitsOf depth list.now bits.old (answer_of result) bits.new }
{
    if DEEPEST_PLAIN < depth {
        return Err(Refusal::Depth);
    }
    judged(depth, list, 1)?;
    let need = bytes_for(depth);
    if bits.len() < need {
        return Err(Refusal::TooShort(need));
    }
    paint_list(depth, list, bits);
    Ok(need)
}

// The good list of the voxels: its length, and its codes in `out`, as far as there is room.
fn gather(bits: Bits<'_>, out: &mut [u32]) -> usize
    ensures { Result bits.entry.depth (black_in bits.entry.depth bits.entry.bytes.now) out.old out.new result }
{
    let full = pow8(bits.depth);
    let mut made = Emitter::new(bits.depth, out);
    for v in 0..full {
        made.push(bits.is_black(v), v, v + 1);
    }
    made.finish()
}

// Bits as the good list of their voxels, and its number of leaves: refused for the depth, with the bytes that the bits need, and with the leaves needed; `out`
// then stays as it is. The first pass counts: it has the empty part of `out`, into which nothing is put.
pub fn to_list(depth: u32, bits: &[u8], out: &mut [u32]) -> Result<usize, Refusal>
    ensures { ToListOf depth bits.now out.old (answer_of result) out.new }
{
    if DEEPEST_PLAIN < depth {
        return Err(Refusal::Depth);
    }
    let Some(bits) = Bits::within(depth, bits) else {
        return Err(Refusal::TooShort(bytes_for(depth)));
    };
    let need = gather(bits, &mut out[..0]);
    if out.len() < need {
        return Err(Refusal::TooShort(need));
    }
    Ok(gather(bits, out))
}
