// INNER: slots, the leaves of a list that meet one cell, and how they fall to its children, for the crates above that go down from cell to cell. A host must
// not call these.
ghost use Rattle.std.specs.Prelude.{◌≡◌, ℕ, suc, ◌+◌, ◌*◌, ◌≤◌, ◌<◌, ◌^◌, length};
ghost use Rattle.records.specs.Slot.{Source, Of, OfCell, SlotTint, slot_at};
ghost use Rattle.records.specs.declared.inner.slots.Tint.TheVariants.{Mixed};

use crate::inner::first_from;
use cells::inner::{first, pow8, width};

// The leaves from place lo up to place hi.
#[derive(Clone, Copy)]
pub struct Slot {
    pub lo: usize,
    pub hi: usize,
}

// What is known of a piece: none of its voxels is black, all are, or nothing.
#[derive(Clone, Copy, PartialEq)]
pub enum Tint {
    White,
    Black,
    Mixed,
}

// What the slot's first leaf says of its cell of span w: there is none, it has all of the cell, or it is smaller.
pub fn tint_slot(depth: u32, l: &[u32], w: u32, s: Slot) -> Tint
    requires { Source depth l.now × (s.hi ≤ length l.now) }
    ensures { SlotTint depth l.now w s result }
{
    let lo = s.lo;
    if s.hi <= lo {
        return Tint::White;
    }
    let c = l[lo];
    if w <= width(depth, c) {
        return Tint::Black;
    }
    Tint::Mixed
}

// The least voxel of the cell of a slot with smaller leaves, k levels left.
pub fn cell_from(depth: u32, l: &[u32], k: u32, s: Slot) -> u32
    requires { OfCell depth l.now k s × SlotTint depth l.now (8 ^ k) s Mixed }
    ensures { (b : ℕ) → Of depth l.now k b s → result ≡ b * 8 ^ k }
{
    let w = pow8(k);
    let at = s.lo;
    first(depth, l[at]) / w * w
}

// The parts of a slot whose leaves are smaller than its cell, one for each child of span 8 ^ k: one search each.
pub fn cut_slot(depth: u32, l: &[u32], k: u32, s: Slot) -> [Slot; 8]
    requires { OfCell depth l.now (suc k) s × SlotTint depth l.now (8 ^ suc k) s Mixed }
    ensures { (b : ℕ) → Of depth l.now (suc k) b s → (m : ℕ) → m < 8 → Of depth l.now k (8 * b + m) (slot_at result m) }
{
    let w = pow8(k);
    let mut v = cell_from(depth, l, k + 1, s);
    let mut lo = s.lo;
    let mut parts = [s; 8];
    for part in parts.iter_mut() {
        v += w;
        let hi = first_from(depth, l, v, lo, s.hi);
        *part = Slot { lo, hi };
        lo = hi;
    }
    parts
}

// The parts of a slot, one for each child. An empty slot, and one whose leaf has all of the cell, is each child's as it is.
pub fn split_slot(depth: u32, l: &[u32], k: u32, s: Slot) -> [Slot; 8]
    requires { OfCell depth l.now (suc k) s }
    ensures { (b : ℕ) → Of depth l.now (suc k) b s → (m : ℕ) → m < 8 → Of depth l.now k (8 * b + m) (slot_at result m) }
{
    match tint_slot(depth, l, pow8(k + 1), s) {
        Tint::White | Tint::Black => [s; 8],
        Tint::Mixed => cut_slot(depth, l, k, s),
    }
}
