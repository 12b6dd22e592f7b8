// One bit of a buffer, read and written, and the bits of a root cube.
ghost use Rattle.std.specs.Prelude.{◌≡◌, ◌*◌, ◌^◌, ◌<◌, ◌≤◌, eqb, length, MatchOption};
ghost use Rattle.plain.specs.Bits.{bytes_for, bit_at, black_in};
ghost use Rattle.plain.specs.Calls.{deepest_plain};
ghost use Rattle.plain.specs.Inner.{marked};

use cells::inner::pow8;

// The bits of a root cube, in a buffer that has them all.
#[derive(Clone, Copy)]
pub struct Bits<'a> {
    pub depth: u32,
    pub bytes: &'a [u8],
    ghost shallow: { depth ≤ deepest_plain },
    ghost whole: { bytes_for depth ≤ length bytes.now },
}

impl<'a> Bits<'a> {
    // The bits at the front of a buffer, if they are all there.
    pub fn within(depth: u32, bytes: &'a [u8]) -> Option<Bits<'a>>
        requires { depth ≤ deepest_plain }
        ensures { MatchOption result (length bytes.now < bytes_for depth) (λ b. (b.depth ≡ depth) × (b.bytes.now ≡ bytes.now)) }
    {
        if bytes.len() < bytes_for(depth) {
            return None;
        }
        Some(Bits { depth, bytes })
    }

    // Whether voxel v is black.
    pub fn is_black(self, v: u32) -> bool
        requires { v < 8 ^ self.depth }
        ensures { result ≡ black_in self.entry.depth self.entry.bytes.now v }
    {
        is_one(self.bytes, v)
    }
}

// The bytes of a root cube's bits: eight voxels to a byte, and one byte at depth 0.
#[tactic(auto, unfolding(crate::specs::Bits::bytes_for))]
pub fn bytes_for(depth: u32) -> usize
    requires { depth ≤ deepest_plain }
    ensures { result ≡ bytes_for depth }
{
    (pow8(depth) / 8).max(1) as usize
}

// Whether bit v is 1. The lowest bit of a byte comes first.
pub fn is_one(bits: &[u8], v: u32) -> bool
    requires { v < 8 * length bits.now }
    ensures { result ≡ eqb (bit_at bits.now v) 1 }
{
    let byte = bits[(v / 8) as usize];
    (byte >> (v % 8)) % 2 == 1
}

// Bit v is written. The bits of its byte below v stay; those above it are 0 until their turn comes.
pub fn mark(bits: &mut [u8], v: u32, black: bool)
    requires { v < 8 * length bits.old }
    ensures { bits.new ≡ marked bits.old v black }
{
    let at = (v / 8) as usize;
    let one = 1u8 << (v % 8);
    let below = bits[at] % one;
    if black {
        bits[at] = below + one;
    } else {
        bits[at] = below;
    }
}
