// Join, intersection and difference of bits.
ghost use Rattle.std.specs.Prelude.{◌≡◌, true, ◌≤◌, length};
ghost use Rattle.cells.specs.Refusals.{answer_of};
ghost use Rattle.sets.specs.Sets.{Chosen};
ghost use Rattle.sets.specs.declared.Op.TheVariants.{Join, Intersect, Subtract};
ghost use Rattle.plain.specs.Bits.{bytes_for, black_in};
ghost use Rattle.plain.specs.Calls.{SetBitsOf};
ghost use Rattle.plain.specs.Inner.{Painted};

use crate::DEEPEST_PLAIN;
use crate::inner::bits::{Bits, bytes_for, mark};
use cells::Refusal;
use cells::inner::pow8;
use sets::Op;
use sets::inner::choose;

// The voxels of a and b, of one depth, that op takes.
fn paint_chosen(op: Op, a: Bits<'_>, b: Bits<'_>, out: &mut [u8])
    requires same { b.depth ≡ a.depth }
    requires room { bytes_for a.depth ≤ length out.old }
    ensures { Painted a.entry.depth (λ v. Chosen op (black_in a.entry.depth a.entry.bytes.now v ≡ true) (black_in a.entry.depth b.entry.bytes.now v ≡ true)) out.old out.new }
{
    for v in 0..pow8(a.depth) {
        mark(out, v, choose(op, a.is_black(v), b.is_black(v)));
    }
}

// The tests of the depth and of the three buffers, and then the voxels that op takes.
fn set_of_bits(op: Op, depth: u32, a: &[u8], b: &[u8], out: &mut [u8]) -> Result<usize, Refusal>
    ensures { SetBitsOf op depth a.now b.now out.old (answer_of result) out.new }
{
    if DEEPEST_PLAIN < depth {
        return Err(Refusal::Depth);
    }
    let need = bytes_for(depth);
    let Some(a) = Bits::within(depth, a) else {
        return Err(Refusal::TooShort(need));
    };
    let Some(b) = Bits::within(depth, b) else {
        return Err(Refusal::TooShort(need));
    };
    if out.len() < need {
        return Err(Refusal::TooShort(need));
    }
    paint_chosen(op, a, b, out);
    Ok(need)
}

// The bits of the voxels black in either: refused for the depth, and with the bytes needed where a buffer is shorter.
pub fn join_bits(depth: u32, a: &[u8], b: &[u8], out: &mut [u8]) -> Result<usize, Refusal>
    ensures { SetBitsOf Join depth a.now b.now out.old (answer_of result) out.new }
{
    set_of_bits(Op::Join, depth, a, b, out)
}

// The bits of the voxels black in both.
pub fn intersect_bits(depth: u32, a: &[u8], b: &[u8], out: &mut [u8]) -> Result<usize, Refusal>
    ensures { SetBitsOf Intersect depth a.now b.now out.old (answer_of result) out.new }
{
    set_of_bits(Op::Intersect, depth, a, b, out)
}

// The bits of the voxels black in the first but not in the second.
pub fn subtract_bits(depth: u32, a: &[u8], b: &[u8], out: &mut [u8]) -> Result<usize, Refusal>
    ensures { SetBitsOf Subtract depth a.now b.now out.old (answer_of result) out.new }
{
    set_of_bits(Op::Subtract, depth, a, b, out)
}
