// INNER: the lines of a listing, and the line of a refusal.
ghost use Rattle.std.specs.Prelude.{◌≡◌, ℕ, ◌+◌, ◌*◌, ◌≤◌, ◌<◌, ◌^◌, length};
ghost use Rattle.cells.specs.Answer.{deepest};
ghost use Rattle.records.specs.Record.{Ordered};
ghost use Rattle.text.specs.Text.{path_lines, refused_text};
ghost use Rattle.text.specs.Inner.{Put, Puts, longest_head, longest_path, head_line, listing};

use crate::inner::parts::Page;

impl Page<'_> {
    // The paths of a list, one a line.
    fn put_paths(&mut self, list: &[u32])
        requires { self.old.at + longest_path * length list.now < 2 ^ 64 }
        ensures same { self.new.bytes.ghost_name ≡ self.old.bytes.ghost_name }
        ensures text { (D : ℕ) → Ordered D 0 list.now → Puts self.old (path_lines D list.now) self.new }
    {
        for code in list {
            self.put_path(*code);
        }
    }

    // The first line: depth, leaf count and black voxels.
    fn put_head(&mut self, depth: u32, leaves: u64, voxels: u64)
        requires { self.old.at + longest_head < 2 ^ 64 }
        ensures same { self.new.bytes.ghost_name ≡ self.old.bytes.ghost_name }
        ensures text { Puts self.old (head_line depth leaves voxels) self.new }
        ensures near { self.new.at ≤ self.old.at + longest_head }
    {
        self.put_field(b"depth ", depth as u64);
        self.put_field(b" leaves ", leaves);
        self.put_field(b" volume ", voxels);
        self.put(b'\n');
    }
}

// The whole listing.
pub fn put_listing(depth: u32, list: &[u32], voxels: u64, bytes: &mut [u8]) -> usize
    requires { (depth ≤ deepest) × Ordered depth 0 list.now × (length list.now ≤ 8 ^ depth) }
    ensures { Put bytes.old 0 (listing depth list.now voxels) bytes.new result }
{
    let mut page = Page::new(bytes);
    page.put_head(depth, list.len() as u64, voxels);
    page.put_paths(list);
    page.place()
}

// The line of a refusal.
pub fn put_refused(number: u32, place: u64, bytes: &mut [u8]) -> usize
    ensures { Put bytes.old 0 (refused_text number place) bytes.new result }
{
    let mut page = Page::new(bytes);
    page.put_field(b"refused ", number as u64);
    page.put_field(b" ", place);
    page.put(b'\n');
    page.place()
}
