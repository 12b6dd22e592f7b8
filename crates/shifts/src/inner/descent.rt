// The descent through target cells, each with its slots, into eight children, the levels left falling.
ghost use Rattle.std.specs.Prelude.{◌≡◌, Bool, ℕ, suc, ◌+◌, ◌*◌, ◌<◌, ◌^◌};
ghost use Rattle.emit.specs.Inner.{Feeds, Result};
ghost use Rattle.shifts.specs.Shift.{shifted};
ghost use Rattle.records.specs.Slot.{Source, Of, SlotTint};
ghost use Rattle.shifts.specs.Descent.{Copying, Copies, Aimed, Divides};
ghost use Rattle.records.specs.declared.inner.slots.Tint.TheVariants.{Mixed};

use crate::inner::labels::{axes, carry_label, sum_label};
use crate::inner::sources::{colour, pick, split};
use cells::inner::{first, pow8, width};
use emit::inner::Emitter;
use records::inner::slots::{Slot, Tint, cell_from, tint_slot};

// A target cell: its least voxel, the levels below it, and the axes on which the shift's labels of these levels are not all 0.
#[derive(Clone, Copy)]
pub struct Target {
    pub from: u32,
    pub k: u32,
    pub axes: u32,
}

// A target cell that comes from one source cell, whose leaves are smaller: they are moved as they are.
pub fn copy_leaves(depth: u32, l: &[u32], c: Target, s: Slot, made: &mut Emitter<'_>)
    requires { Copying depth l.now c s made.old × SlotTint depth l.now (8 ^ c.k) s Mixed }
    ensures same { made.new.out.ghost_name ≡ made.old.out.ghost_name }
    ensures depth { made.new.depth ≡ made.old.depth }
    ensures fed { (P : ℕ → Bool) (b : ℕ) → Of depth l.now c.k b s → Copies depth l.now b c P →
        Feeds depth P c.from (c.from + 8 ^ c.k) made.old made.new }
{
    let base = cell_from(depth, l, c.k, s);
    for i in s.lo..s.hi {
        let code = l[i];
        let v = c.from + (first(depth, code) - base);
        made.push(true, v, v + width(depth, code));
    }
}

// A target cell that comes from one source cell: no leaf, one that has all of it, or smaller ones.
pub fn copy_slot(depth: u32, l: &[u32], c: Target, s: Slot, made: &mut Emitter<'_>)
    requires { Copying depth l.now c s made.old }
    ensures same { made.new.out.ghost_name ≡ made.old.out.ghost_name }
    ensures depth { made.new.depth ≡ made.old.depth }
    ensures fed { (P : ℕ → Bool) (b : ℕ) → Of depth l.now c.k b s → Copies depth l.now b c P →
        Feeds depth P c.from (c.from + 8 ^ c.k) made.old made.new }
{
    let w = pow8(c.k);
    match tint_slot(depth, l, w, s) {
        Tint::White => {}
        Tint::Black => made.push(true, c.from, c.from + w),
        Tint::Mixed => copy_leaves(depth, l, c, s, made),
    }
}

// The target cell c with its slots t. Where the rest of the shift is a multiple of its side, it comes from one source cell.
#[cycle(shift_cell_shift_children)]
pub fn shift_cell(depth: u32, l: &[u32], w: u32, c: Target, t: [Slot; 8], made: &mut Emitter<'_>)
    requires { Aimed depth l.now w c t made.old }
    ensures same { made.new.out.ghost_name ≡ made.old.out.ghost_name }
    ensures depth { made.new.depth ≡ made.old.depth }
    ensures fed { Feeds depth (shifted depth l.now w) c.from (c.from + 8 ^ c.k) made.old made.new }
{
    if c.axes == 0 {
        return copy_slot(depth, l, c, t[0], made);
    }
    let span = pow8(c.k);
    match colour(depth, l, span, c.axes, t) {
        Tint::White => {}
        Tint::Black => made.push(true, c.from, c.from + span),
        Tint::Mixed => {
            let k = c.k - 1;
            let p = split(depth, l, k, c.axes, t);
            let first = Target {
                from: c.from,
                k,
                axes: axes(w, k),
            };
            shift_children(depth, l, w, first, p, made)
        }
    }
}

// Eight target cells in label order, c the first, with the parts p of their parent's slots. Where no axis can carry, each comes from one source cell.
#[cycle(shift_cell_shift_children)]
pub fn shift_children(
    depth: u32,
    l: &[u32],
    w: u32,
    c: Target,
    p: [[Slot; 8]; 8],
    made: &mut Emitter<'_>,
)
    requires { Divides depth l.now w c p made.old }
    ensures same { made.new.out.ghost_name ≡ made.old.out.ghost_name }
    ensures depth { made.new.depth ≡ made.old.depth }
    ensures fed { Feeds depth (shifted depth l.now w) c.from (c.from + 8 ^ suc c.k) made.old made.new }
{
    let span = pow8(c.k);
    let h = (w >> (3 * c.k)) % 8;
    let mut v = c.from;
    for m in 0..8 {
        let child = Target { from: v, ..c };
        if c.axes == 0 {
            let from = carry_label(h, m, 0) as usize;
            let label = sum_label(h, m, 0) as usize;
            copy_slot(depth, l, child, p[from][label], made);
        } else {
            shift_cell(depth, l, w, child, pick(p, h, m), made);
        }
        v += span;
    }
}

// The good list of the shifted voxels: its length, and its codes in `out`, as far as there is room.
pub fn shift_list(depth: u32, l: &[u32], w: u32, out: &mut [u32]) -> usize
    requires { Source depth l.now }
    ensures { Result depth (shifted depth l.now w) out.old out.new result }
{
    let all = Slot { lo: 0, hi: l.len() };
    let root = Target {
        from: 0,
        k: depth,
        axes: axes(w, depth),
    };
    let mut made = Emitter::new(depth, out);
    shift_cell(depth, l, w, root, [all; 8], &mut made);
    made.finish()
}
