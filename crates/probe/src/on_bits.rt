// The calls of the crate plain, on bits.
ghost use Rattle.metres.specs.declared.Move.TheVariants as the-move;
ghost use Rattle.sets.specs.declared.Op.TheVariants.{Join, Intersect, Subtract};
ghost use Rattle.plain.specs.Calls.{ToBitsOf, ToListOf, SetBitsOf, MoveBitsOf, LookupBitsOf};
ghost use Rattle.probe.specs.Probe.{Finds, Writes, metres_of};

use crate::inner::tell;
use cells::Answer;
use metres::{Metres, Move};
use plain::{intersect_bits, join_bits, lookup_bits, move_bits, subtract_bits, to_bits, to_list};
use records::inner::findings;

#[unsafe(no_mangle)]
pub extern "C" fn probe_bits_from(depth: u32, list: &[u32], bits: &mut [u8], answer: &mut [u64])
    ensures { Writes answer.old answer.new bits.old bits.new
        (ToBitsOf depth list.now bits.old) }
{
    if answer.len() < 8 {
        return;
    }
    let r = to_bits(depth, list, bits);
    tell(answer, Answer::from(r), 0, 0, 0, 0);
}

#[unsafe(no_mangle)]
pub extern "C" fn probe_bits_to(depth: u32, bits: &[u8], out: &mut [u32], answer: &mut [u64])
    ensures { Writes answer.old answer.new out.old out.new
        (ToListOf depth bits.now out.old) }
{
    if answer.len() < 8 {
        return;
    }
    let r = to_list(depth, bits, out);
    tell(answer, Answer::from(r), 0, 0, 0, 0);
}

#[unsafe(no_mangle)]
pub extern "C" fn probe_bits_move(
    depth: u32,
    bits: &[u8],
    dx: i32,
    dy: i32,
    dz: i32,
    out: &mut [u8],
    answer: &mut [u64],
)
    ensures { Writes answer.old answer.new out.old out.new
        (MoveBitsOf depth bits.now (the-move.Voxels dx dy dz) out.old) }
{
    if answer.len() < 8 {
        return;
    }
    let r = move_bits(depth, bits, Move::Voxels(dx, dy, dz), out);
    tell(answer, Answer::from(r), 0, 0, 0, 0);
}

#[unsafe(no_mangle)]
pub extern "C" fn probe_bits_move_metres(
    depth: u32,
    bits: &[u8],
    x: f64,
    y: f64,
    z: f64,
    s: u32,
    out: &mut [u8],
    answer: &mut [u64],
)
    ensures { Writes answer.old answer.new out.old out.new
        (MoveBitsOf depth bits.now (the-move.Metres (metres_of x y z s)) out.old) }
{
    if answer.len() < 8 {
        return;
    }
    let d = Metres { x, y, z, s };
    let r = move_bits(depth, bits, Move::Metres(d), out);
    tell(answer, Answer::from(r), 0, 0, 0, 0);
}

#[unsafe(no_mangle)]
pub extern "C" fn probe_bits_join(
    depth: u32,
    a: &[u8],
    b: &[u8],
    out: &mut [u8],
    answer: &mut [u64],
)
    ensures { Writes answer.old answer.new out.old out.new
        (SetBitsOf Join depth a.now b.now out.old) }
{
    if answer.len() < 8 {
        return;
    }
    let r = join_bits(depth, a, b, out);
    tell(answer, Answer::from(r), 0, 0, 0, 0);
}

#[unsafe(no_mangle)]
pub extern "C" fn probe_bits_meet(
    depth: u32,
    a: &[u8],
    b: &[u8],
    out: &mut [u8],
    answer: &mut [u64],
)
    ensures { Writes answer.old answer.new out.old out.new
        (SetBitsOf Intersect depth a.now b.now out.old) }
{
    if answer.len() < 8 {
        return;
    }
    let r = intersect_bits(depth, a, b, out);
    tell(answer, Answer::from(r), 0, 0, 0, 0);
}

#[unsafe(no_mangle)]
pub extern "C" fn probe_bits_less(
    depth: u32,
    a: &[u8],
    b: &[u8],
    out: &mut [u8],
    answer: &mut [u64],
)
    ensures { Writes answer.old answer.new out.old out.new
        (SetBitsOf Subtract depth a.now b.now out.old) }
{
    if answer.len() < 8 {
        return;
    }
    let r = subtract_bits(depth, a, b, out);
    tell(answer, Answer::from(r), 0, 0, 0, 0);
}

// With the level beside the place.
#[unsafe(no_mangle)]
pub extern "C" fn probe_bits_lookup(
    depth: u32,
    bits: &[u8],
    x: u32,
    y: u32,
    z: u32,
    answer: &mut [u64],
)
    ensures { Finds answer.old answer.new (LookupBitsOf depth bits.now x y z) }
{
    if answer.len() < 8 {
        return;
    }
    let (a, level) = findings::told(lookup_bits(depth, bits, x, y, z));
    tell(answer, a, 0, 0, 0, level as u64);
}
