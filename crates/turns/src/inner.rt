// INNER: the descent through target cells, each with the leaves of the one source cell that turns into it.
ghost use Rattle.std.specs.Prelude.{◌≡◌, suc, ◌+◌, ◌<◌, ◌^◌};
ghost use Rattle.emit.specs.Inner.{Feeds, Result};
ghost use Rattle.records.specs.Slot.{Source};
ghost use Rattle.turns.specs.Inner.{label_of, source_label, turned, Turning, KidsTurning};

use cells::inner::pow8;
use emit::inner::Emitter;
use records::inner::slots::{Slot, Tint, cut_slot, tint_slot};

// A target cell: its least voxel, the levels below it, and how many turns it comes by.
#[derive(Clone, Copy)]
pub struct Target {
    pub from: u32,
    pub k: u32,
    pub turns: u32,
}

// The label with the halves x, y and z.
fn label(x: u32, y: u32, z: u32) -> u32
    requires { (x < 2) × (y < 2) × (z < 2) }
    ensures { result ≡ label_of x y z }
{
    x + 2 * y + 4 * z
}

// The label that a number of turns takes to label m. One turn takes the halves (x, y) to (1 - y, x); here it is taken back.
fn source_label(turns: u32, m: u32) -> u32
    requires { m < 8 }
    ensures { (result ≡ source_label turns m) × (result < 8) }
{
    let x = m % 2;
    let y = m / 2 % 2;
    let z = m / 4;
    match turns % 4 {
        0 => m,
        1 => label(y, 1 - x, z),
        2 => label(1 - x, 1 - y, z),
        _ => label(1 - y, x, z),
    }
}

// The target cell c, slot s its source's leaves: none, one that has all of it, or smaller ones.
#[cycle(turn_cell_turn_children)]
pub fn turn_cell(depth: u32, l: &[u32], c: Target, s: Slot, made: &mut Emitter<'_>)
    requires { Turning depth l.now c s made.old }
    ensures same { made.new.out.ghost_name ≡ made.old.out.ghost_name }
    ensures depth { made.new.depth ≡ made.old.depth }
    ensures fed { Feeds depth (turned depth l.now c.turns) c.from (c.from + 8 ^ c.k) made.old made.new }
{
    let w = pow8(c.k);
    match tint_slot(depth, l, w, s) {
        Tint::White => {}
        Tint::Black => made.push(true, c.from, c.from + w),
        Tint::Mixed => {
            let k = c.k - 1;
            let parts = cut_slot(depth, l, k, s);
            turn_children(depth, l, Target { k, ..c }, parts, made)
        }
    }
}

// Eight target cells in label order, c the first, with the parts of their parent's slot: each takes the part whose label turns into its own.
#[cycle(turn_cell_turn_children)]
pub fn turn_children(depth: u32, l: &[u32], c: Target, parts: [Slot; 8], made: &mut Emitter<'_>)
    requires { KidsTurning depth l.now c parts made.old }
    ensures same { made.new.out.ghost_name ≡ made.old.out.ghost_name }
    ensures depth { made.new.depth ≡ made.old.depth }
    ensures fed { Feeds depth (turned depth l.now c.turns) c.from (c.from + 8 ^ suc c.k) made.old made.new }
{
    let span = pow8(c.k);
    let mut v = c.from;
    for m in 0..8 {
        let child = Target { from: v, ..c };
        let slot = parts[source_label(c.turns, m) as usize];
        // most children are white: they take no call
        if slot.lo < slot.hi {
            turn_cell(depth, l, child, slot, made);
        }
        v += span;
    }
}

// The good list of the turned voxels: its length, and its codes in `out`, as far as there is room.
pub fn turn_root(depth: u32, l: &[u32], turns: u32, out: &mut [u32]) -> usize
    requires { Source depth l.now }
    ensures { Result depth (turned depth l.now turns) out.old out.new result }
{
    let all = Slot { lo: 0, hi: l.len() };
    let root = Target {
        from: 0,
        k: depth,
        turns,
    };
    let mut made = Emitter::new(depth, out);
    turn_cell(depth, l, root, all, &mut made);
    made.finish()
}
