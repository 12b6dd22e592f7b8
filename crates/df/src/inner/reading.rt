// INNER: a text read cell by cell; its black leaves feed the emitter. Where the text is wrong, the error is the place of the wrong byte.
ghost use Rattle.std.specs.Prelude.{◌≡◌, ℕ, suc, ◌≤◌, Some, MatchResult};
ghost use Rattle.cells.specs.Answer.{deepest};
ghost use Rattle.cells.specs.Refusals.{answer_of};
ghost use Rattle.df.specs.Df.{Tree};
ghost use Rattle.df.specs.Inner.{byte_of, head_of, HeadAt, InCommon, Ahead, Opens, CellRead, Stuck, ReadTextOf};

use crate::inner::Head;
use cells::Refusal;
use cells::inner::pow8;
use emit::inner::Emitter;

// A cell that is read: how it begins, and the place after it.
#[derive(Clone, Copy)]
pub struct Cell {
    pub head: Head,
    pub after: usize,
}

// How the cell at a place begins: there is none at a byte that is no head, nor past the end.
fn head_at(text: &[u8], at: usize) -> Option<Head>
    ensures { HeadAt text.now at result }
{
    Head::of(*text.get(at)?)
}

// One child more, which begins with `head`: the head of the leaf that all of them are, or `Open`, where they are not one leaf.
fn shared(alike: Option<Head>, head: Head) -> Head
    ensures { (c : ℕ → Tree) (m : ℕ) → InCommon c m alike → head_of (c m) ≡ byte_of head → InCommon c (suc m) (Some result) }
{
    match alike {
        None => head,
        Some(other) => { if other == head { head } else { Head::Open } }
    }
}

// The cell with k levels left whose least voxel is `from`, from place `at` on.
#[cycle(read_cell_read_gray)]
pub fn read_cell(
    depth: u32,
    text: &[u8],
    k: u32,
    from: u32,
    at: usize,
    made: &mut Emitter<'_>,
) -> Result<Cell, usize>
    requires { Ahead depth text.now k from at made.old }
    ensures same { made.new.out.ghost_name ≡ made.old.out.ghost_name }
    ensures depth { made.new.depth ≡ made.old.depth }
    ensures read { MatchResult result (CellRead depth text.now k from at made.old made.new) (Stuck k text.now at) }
{
    let Some(head) = head_at(text, at) else {
        return Err(at);
    };
    match head {
        Head::White => {}
        Head::Black => made.push(true, from, from + pow8(k)),
        Head::Open => {
            if k == 0 {
                return Err(at);
            }
            return read_gray(depth, text, k - 1, from, at, made);
        }
    }
    Ok(Cell {
        head,
        after: at + 1,
    })
}

// A gray cell, which the byte at place `at` opens and whose eight children have k levels left each: where they are eight equal leaves, the last of them is wrong.
#[cycle(read_cell_read_gray)]
pub fn read_gray(
    depth: u32,
    text: &[u8],
    k: u32,
    from: u32,
    at: usize,
    made: &mut Emitter<'_>,
) -> Result<Cell, usize>
    requires { Opens depth text.now k from at made.old }
    ensures same { made.new.out.ghost_name ≡ made.old.out.ghost_name }
    ensures depth { made.new.depth ≡ made.old.depth }
    ensures read { MatchResult result (CellRead depth text.now (suc k) from at made.old made.new) (Stuck (suc k) text.now at) }
{
    let span = pow8(k);
    let mut after = at + 1;
    let mut v = from;
    let mut alike = None;
    for _m in 0..8u32 {
        let child = read_cell(depth, text, k, v, after, made)?;
        alike = Some(shared(alike, child.head));
        after = child.after;
        v += span;
    }
    if alike != Some(Head::Open) {
        return Err(after - 1);
    }
    Ok(Cell {
        head: Head::Open,
        after,
    })
}

// The whole text: 10 with the place of its first wrong byte, or the good list of its black voxels, as far as there is room, and its number of leaves.
pub fn read_text(depth: u32, text: &[u8], out: &mut [u32]) -> Result<usize, Refusal>
    requires { depth ≤ deepest }
    ensures { ReadTextOf depth text.now out.old out.new (answer_of result) }
{
    let mut made = Emitter::new(depth, out);
    let end = match read_cell(depth, text, depth, 0, 0, &mut made) {
        Ok(root) => root.after,
        Err(at) => return Err(Refusal::BadText(at)),
    };
    if end < text.len() {
        return Err(Refusal::BadText(end));
    }
    Ok(made.finish())
}
