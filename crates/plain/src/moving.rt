// A move of bits, on the enum `Move`: first a loop that looks for a black voxel that leaves the root, then one that writes.
ghost use Rattle.std.specs.Prelude.{◌≡◌, true, ◌↔◌, ℕ, ◌<◌, ◌≤◌, ◌^◌, ℤ, neg_ℤ, length};
ghost use Rattle.cells.specs.Refusals.{answer_of};
ghost use Rattle.cells.specs.Place.{axes, Came};
ghost use Rattle.records.specs.Carried.{FromBlack};
ghost use Rattle.moves.specs.Inner.{AllSplit, parts, Searched};
ghost use Rattle.plain.specs.Bits.{bytes_for, black_in};
ghost use Rattle.plain.specs.Calls.{deepest_plain, Leaves, ShiftBitsOf, MoveBitsOf};
ghost use Rattle.plain.specs.Inner.{Painted};

use crate::DEEPEST_PLAIN;
use crate::inner::bits::{Bits, bytes_for, mark};
use crate::inner::displaced::{displace, other_way};
use cells::Refusal;
use cells::inner::pow8;
use metres::Move;
use metres::inner::{Steps, in_voxels};
use moves::inner::Displacement;

// Whether voxel u is black and leaves the root.
fn leaves(bits: Bits<'_>, u: u32, d: Displacement) -> bool
    requires { u < 8 ^ bits.depth }
    ensures { (by : ℕ → ℤ) → AllSplit by (parts d) → (result ≡ true) ↔ Leaves (Came bits.entry.depth by) (black_in bits.entry.depth bits.entry.bytes.now) u }
{
    if !bits.is_black(u) {
        return false;
    }
    displace(bits.depth, u, d).is_none()
}

// The first black voxel that leaves the root.
fn first_leaving(bits: Bits<'_>, d: Displacement) -> Option<u32>
    ensures { (by : ℕ → ℤ) → AllSplit by (parts d) → Searched (8 ^ bits.entry.depth) (Leaves (Came bits.entry.depth by) (black_in bits.entry.depth bits.entry.bytes.now)) result }
{
    for u in 0..pow8(bits.depth) {
        if leaves(bits, u, d) {
            return Some(u);
        }
    }
    None
}

// Whether the voxel that came to v was black. `back` leads back from v.
fn was_black(bits: Bits<'_>, v: u32, back: Displacement) -> bool
    requires { v < 8 ^ bits.depth }
    ensures { (by : ℕ → ℤ) → AllSplit (λ a. neg_ℤ (by a)) (parts back) → (result ≡ true) ↔ FromBlack (Came bits.entry.depth by) (black_in bits.entry.depth bits.entry.bytes.now) v }
{
    match displace(bits.depth, v, back) {
        Some(u) => bits.is_black(u),
        None => false,
    }
}

// The voxels that came from black ones. `back` leads back to where they came from.
fn paint_moved(bits: Bits<'_>, back: Displacement, out: &mut [u8])
    requires { bytes_for bits.depth ≤ length out.old }
    ensures { (by : ℕ → ℤ) → AllSplit (λ a. neg_ℤ (by a)) (parts back) → Painted bits.entry.depth (FromBlack (Came bits.entry.depth by) (black_in bits.entry.depth bits.entry.bytes.now)) out.old out.new }
{
    for v in 0..pow8(bits.depth) {
        mark(out, v, was_black(bits, v, back));
    }
}

// The bits moved by whole voxels: refused with the bytes needed where a buffer is shorter, and with the first black voxel that leaves the root; `out` then stays
// as it is.
fn move_whole(depth: u32, bits: &[u8], by: Steps, out: &mut [u8]) -> Result<usize, Refusal>
    requires { depth ≤ deepest_plain }
    ensures { ShiftBitsOf depth bits.now out.old (axes by.x by.y by.z) (answer_of result, out.new) }
{
    let need = bytes_for(depth);
    let Some(bits) = Bits::within(depth, bits) else {
        return Err(Refusal::TooShort(need));
    };
    if out.len() < need {
        return Err(Refusal::TooShort(need));
    }
    let d = Displacement::from(by);
    if let Some(u) = first_leaving(bits, d) {
        return Err(Refusal::Strays(u as usize, 1));
    }
    paint_moved(bits, other_way(d), out);
    Ok(need)
}

// The bits of the displaced voxels: refused for the depth, for a move in metres that is no whole move, with the bytes needed where a buffer is shorter, and with
// the first black voxel that leaves the root; `out` then stays as it is.
pub fn move_bits(depth: u32, bits: &[u8], m: Move, out: &mut [u8]) -> Result<usize, Refusal>
    ensures { MoveBitsOf depth bits.now m out.old (answer_of result) out.new }
{
    if DEEPEST_PLAIN < depth {
        return Err(Refusal::Depth);
    }
    match in_voxels(m) {
        Ok(by) => move_whole(depth, bits, by, out),
        Err(bad) => Err(Refusal::NoMove(bad)),
    }
}
