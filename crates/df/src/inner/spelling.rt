// INNER: the text of a list, cell by cell, each with the leaves that meet it.
ghost use Rattle.std.specs.Prelude.{◌≡◌, ℕ, ◌+◌, ◌*◌, ◌<◌, ◌≤◌};
ghost use Rattle.cells.specs.Answer.{deepest};
ghost use Rattle.records.specs.Record.{black, Good};
ghost use Rattle.records.specs.Slot.{Of, slot_at};
ghost use Rattle.df.specs.Inner.{Spelling, KidsSpelling, Spelled, KidsSpelled};

use crate::inner::Head;
use cells::inner::pow8;
use records::inner::slots::{Slot, Tint, cut_slot, tint_slot};
use text::inner::parts::Page;

// The text of the cell with k levels left whose leaves slot s has.
#[cycle(put_cell_put_children)]
pub fn put_cell(depth: u32, l: &[u32], k: u32, s: Slot, page: &mut Page<'_>)
    requires { Spelling depth l.now k s page.old.at }
    ensures same { page.new.bytes.ghost_name ≡ page.old.bytes.ghost_name }
    ensures text { (b : ℕ) → Of depth l.now k b s → Spelled (black depth l.now) k b page.old.bytes.now page.old.at page.new.bytes.now page.new.at }
{
    match tint_slot(depth, l, pow8(k), s) {
        Tint::White => page.put(Head::White.byte()),
        Tint::Black => page.put(Head::Black.byte()),
        Tint::Mixed => {
            let parts = cut_slot(depth, l, k - 1, s);
            page.put(Head::Open.byte());
            put_children(depth, l, k - 1, parts, page);
        }
    }
}

// Eight children in label order, with k levels left under each, and the parts of their parent's slot.
#[cycle(put_cell_put_children)]
pub fn put_children(depth: u32, l: &[u32], k: u32, parts: [Slot; 8], page: &mut Page<'_>)
    requires { KidsSpelling depth l.now k parts page.old.at }
    ensures same { page.new.bytes.ghost_name ≡ page.old.bytes.ghost_name }
    ensures text { (b : ℕ) → ((m : ℕ) → m < 8 → Of depth l.now k (8 * b + m) (slot_at parts m)) → KidsSpelled (black depth l.now) k b 8 page.old.bytes.now page.old.at page.new.bytes.now page.new.at }
{
    for m in 0..8 {
        put_cell(depth, l, k, parts[m], page);
    }
}

// The text of the whole list.
pub fn put_text(depth: u32, l: &[u32], bytes: &mut [u8]) -> usize
    requires { (depth ≤ deepest) × Good depth l.now }
    ensures { Spelled (black depth l.now) depth 0 bytes.old 0 bytes.new result }
{
    let all = Slot { lo: 0, hi: l.len() };
    let mut page = Page::new(bytes);
    put_cell(depth, l, depth, all, &mut page);
    page.place()
}
