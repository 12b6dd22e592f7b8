// A voxel looked up in bits, so that the two engines can be compared voxel by voxel.
ghost use Rattle.std.specs.Prelude.{◌≡◌, not, ◌+◌, ◌*◌, ◌^◌, ◌≤◌, ◌<◌, eqb, length};
ghost use Rattle.records.specs.Gap.{Free};
ghost use Rattle.records.specs.Lookups.{lookup_answer};
ghost use Rattle.moves.specs.Inner.{Searched};
ghost use Rattle.plain.specs.Bits.{bit_at, black_in};
ghost use Rattle.plain.specs.Calls.{deepest_plain, LookupBitsOf};

use crate::DEEPEST_PLAIN;
use crate::inner::bits::{Bits, bytes_for, is_one};
use cells::Refusal;
use cells::inner::{number_of, pow8};
use records::Finding;
use records::inner::in_root;

// The first of the `count` voxels from `from` on that has another colour than the one asked for.
fn first_other(bits: &[u8], from: u32, count: u32, black: bool) -> Option<u32>
    requires { (from + count ≤ 8 ^ deepest_plain) × (from + count ≤ 8 * length bits.now) }
    ensures { Searched count (λ i. eqb (bit_at bits.now (from + i)) 1 ≡ not black) result }
{
    for i in 0..count {
        if is_one(bits, from + i) != black {
            return Some(i);
        }
    }
    None
}

// How many levels the largest cell of one colour that holds voxel v has below it: cell by cell outwards, until one has a voxel of another colour.
fn levels_of_one_colour(bits: Bits<'_>, v: u32, black: bool) -> u32
    requires root { v < 8 ^ bits.depth }
    requires own { black_in bits.depth bits.bytes.now v ≡ black }
    ensures { Free bits.entry.depth v result (λ u. black_in bits.entry.depth bits.entry.bytes.now u ≡ not black) }
{
    for levels in 0..bits.depth {
        let count = pow8(levels + 1);
        if first_other(bits.bytes, v / count * count, count, black).is_some() {
            return levels;
        }
    }
    bits.depth
}

// The colour of the voxel x, y, z and the level of its cell: refused for the depth, for a voxel outside the root, and with the bytes that the bits need.
pub fn lookup_bits(depth: u32, bits: &[u8], x: u32, y: u32, z: u32) -> Result<Finding, Refusal>
    ensures { LookupBitsOf depth bits.now x y z (lookup_answer result) }
{
    if DEEPEST_PLAIN < depth {
        return Err(Refusal::Depth);
    }
    if !in_root(depth, x, y, z) {
        return Err(Refusal::NoVoxel);
    }
    let Some(bits) = Bits::within(depth, bits) else {
        return Err(Refusal::TooShort(bytes_for(depth)));
    };
    let v = number_of(depth, x, y, z);
    let black = bits.is_black(v);
    let level = depth - levels_of_one_colour(bits, v, black);
    Ok(Finding { black, level })
}
