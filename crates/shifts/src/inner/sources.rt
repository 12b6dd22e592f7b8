// The eight slots of a target cell: those of the source cells of its displaced box, as far as the shift can reach them.
ghost use Rattle.std.specs.Prelude.{◌≡◌, true, ℕ, suc, ◌+◌, ◌<◌};
ghost use Rattle.shifts.specs.LabelSums.{sum_label, carry_label, Uses};
ghost use Rattle.records.specs.Slot.{OfCell, SlotTint, slot_at};
ghost use Rattle.shifts.specs.Descent.{Slots, OfCells, Divided, SlotsTint, part_at};

use crate::inner::labels::{carry_label, sum_label, within};
use records::inner::slots::{Slot, Tint, split_slot, tint_slot};

// The parts of the slots that are needed.
pub fn split(depth: u32, l: &[u32], k: u32, f: u32, t: [Slot; 8]) -> [[Slot; 8]; 8]
    requires { (f < 8) × OfCells depth l.now (suc k) f t }
    ensures { (S : ℕ → ℕ) → Slots depth l.now (suc k) f S t → Divided depth l.now k f S result }
{
    let mut r = [t; 8];
    for q in 0..8 {
        if within(f, q as u32) {
            r[q] = split_slot(depth, l, k, t[q]);
        }
    }
    r
}

// The slots of child m, from the parts of its parent's slots: a full adder on labels.
pub fn pick(p: [[Slot; 8]; 8], h: u32, m: u32) -> [Slot; 8]
    requires { (h < 8) × (m < 8) }
    ensures { (q : ℕ) → q < 8 → slot_at result q ≡ part_at p (carry_label h m q) (sum_label h m q) }
{
    let mut r = [Slot { lo: 0, hi: 0 }; 8];
    for q in 0..8 {
        let from = carry_label(h, m, q as u32) as usize;
        let label = sum_label(h, m, q as u32) as usize;
        r[q] = p[from][label];
    }
    r
}

// Whether slot q has the tint t, if it is needed.
pub fn agrees(depth: u32, l: &[u32], w: u32, f: u32, q: u32, s: Slot, t: Tint) -> bool
    requires { (f < 8) × (q < 8) × (Uses f q → (n : ℕ) × OfCell depth l.now n s) }
    ensures { result ≡ true → Uses f q → SlotTint depth l.now w s t }
{
    !within(f, q) || tint_slot(depth, l, w, s) == t
}

// The tint that all needed slots of a cell of span w have; Mixed, where two differ.
pub fn colour(depth: u32, l: &[u32], w: u32, f: u32, t: [Slot; 8]) -> Tint
    requires { (f < 8) × ((n : ℕ) × OfCells depth l.now n f t) }
    ensures { SlotsTint depth l.now w f t result }
{
    let r = tint_slot(depth, l, w, t[0]);
    for q in 1..8 {
        if !agrees(depth, l, w, f, q as u32, t[q], r) {
            return Tint::Mixed;
        }
    }
    r
}
