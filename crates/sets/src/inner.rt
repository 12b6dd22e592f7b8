// INNER: one sweep along the voxel numbers serves join, intersection and difference. A host must not call these.
// Each list has a cursor, which keeps the start and the end of its leaf; where both lists are white the sweep jumps to the next leaf.
ghost use Rattle.std.specs.Prelude.{◌≡◌, List, ℕ, ◌≤◌, ◌<◌, ◌^◌};
ghost use Rattle.cells.specs.Answer.{deepest};
ghost use Rattle.cells.specs.Refusals.{answer_of};
ghost use Rattle.records.specs.Record.{Ordered};
ghost use Rattle.records.specs.Writing.{WritesListOf};
ghost use Rattle.emit.specs.Inner.{Result};
ghost use Rattle.sets.specs.Sets.{InResult};
ghost use Rattle.sets.specs.Inner.{chosen, both, Behind, Points, Passing, Steady};

use crate::Op;
use cells::Refusal;
use cells::inner::{pow8, width};
use emit::inner::Emitter;

// A leaf of a list: its least voxel number and the one after its last, and the leaves after it. Past the last leaf both numbers are the root's end.
#[derive(Clone, Copy)]
pub struct Cursor<'a> {
    pub from: u32,
    pub to: u32,
    pub rest: &'a [u32],
}

// From a voxel on: black or white, and up to where this lasts.
#[derive(Clone, Copy)]
pub struct Side {
    pub black: bool,
    pub until: u32,
}

// Whether a result has a voxel, from its colours in the two sets: asked by the sweep, and voxel by voxel of bits.
pub fn choose(op: Op, a: bool, b: bool) -> bool
    ensures { result ≡ chosen op a b }
{
    match op {
        Op::Join => a || b,
        Op::Intersect => a && b,
        Op::Subtract => a && !b,
    }
}

// The cursor at the first of the leaves of `list`.
fn load(depth: u32, list: &[u32]) -> Cursor
    requires { (depth ≤ deepest) × ((v : ℕ) × Ordered depth v list.now) }
    ensures { (l : List ℕ) (v : ℕ) → Behind depth l list.now v → Points depth l result v }
{
    let full = pow8(depth);
    let Some((&code, rest)) = list.split_first() else {
        return Cursor {
            from: full,
            to: full,
            rest: list,
        };
    };
    let w = width(depth, code);
    let from = code * w - full;
    Cursor {
        from,
        to: from + w,
        rest,
    }
}

// The cursor from voxel `next` on, up to which it has come: the same, or the next leaf where this one ends.
fn pass(depth: u32, c: Cursor, next: u32) -> Cursor
    requires { (l : List ℕ) × Passing depth l c next }
    ensures { (l : List ℕ) → Passing depth l c.entry next → Points depth l result next }
{
    if next < c.to {
        return c;
    }
    load(depth, c.rest)
}

// What a list has from voxel v on.
fn look(c: Cursor, v: u32) -> Side
    ensures { (D : ℕ) (l : List ℕ) → v < 8 ^ D → Points D l c.entry v → Steady D l c.entry v result }
{
    if c.from <= v {
        return Side {
            black: true,
            until: c.to,
        };
    }
    Side {
        black: false,
        until: c.from,
    }
}

// The good list of the voxels that op takes: its length, and its codes in `out`, as far as there is room.
fn sweep(op: Op, depth: u32, a: &[u32], b: &[u32], out: &mut [u32]) -> usize
    requires { (depth ≤ deepest) × Ordered depth 0 a.now × Ordered depth 0 b.now }
    ensures { Result depth (both op depth a.now b.now) out.old out.new result }
{
    let full = pow8(depth);
    let mut made = Emitter::new(depth, out);
    let mut x = load(depth, a);
    let mut y = load(depth, b);
    let mut v = x.from.min(y.from);
    while v < full {
        let s = look(x, v);
        let t = look(y, v);
        let next = s.until.min(t.until);
        made.push(choose(op, s.black, t.black), v, next);
        x = pass(depth, x, next);
        y = pass(depth, y, next);
        v = next.max(x.from.min(y.from));
    }
    made.finish()
}

// The good list of the voxels that op takes, at the front of `out`; where it does not fit, `out` stays as it is.
// The first sweep counts: it has the empty part of `out`, into which nothing is put.
pub fn combine(op: Op, depth: u32, a: &[u32], b: &[u32], out: &mut [u32]) -> Result<usize, Refusal>
    requires { (depth ≤ deepest) × Ordered depth 0 a.now × Ordered depth 0 b.now }
    ensures { WritesListOf depth (InResult op depth a.now b.now) out.old (answer_of result, out.new) }
{
    let need = sweep(op, depth, a, b, &mut out[..0]);
    if out.len() < need {
        return Err(Refusal::TooShort(need));
    }
    Ok(sweep(op, depth, a, b, out))
}
