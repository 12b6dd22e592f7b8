// Taking in a record: the order's job over the layer's public calls, to copy into a program of one's own. A machine's stored file arrives, is read and moved to
// our origin; then it is joined with our record, and the joined record is stored. The buffers are the caller's.
// A call is refused as the layer's calls are. It then leaves its last buffer as it was; those before it are for work, and hold what the steps until then wrote.
#![tactic(auto)]

ghost use Rattle.cells.specs.Refusals.{answer_of};
ghost use Rattle.arrivals.specs.Arrivals.{ArriveOf, MergeOf};

use blocks::{read, write};
use cells::Refusal;
use metres::Move;
use moves::move_list;
use sets::join;

// A stored file, for a site of our depth: its list is read to `codes`, and moved by `m` to `moved`. Success tells the leaves there.
// Refused as `read` and `move_list` are; between them 1 for a file of another depth, which would be ground of another size.
pub fn arrive(
    depth: u32,
    file: &[u8],
    m: Move,
    codes: &mut [u32],
    moved: &mut [u32],
) -> Result<usize, Refusal>
    ensures { ArriveOf depth file.now m codes.old moved.old (answer_of result, codes.new, moved.new) }
{
    let found = read(file, codes)?;
    if found.depth != depth {
        return Err(Refusal::Depth);
    }
    move_list(depth, &codes[..found.leaves], m, moved)
}

// Our list and the one that arrived, joined to `joined`, and the joined list written to `bytes` as a stored file. Success tells its bytes.
// Refused as `join` and `write` are.
pub fn merge(
    depth: u32,
    ours: &[u32],
    theirs: &[u32],
    joined: &mut [u32],
    bytes: &mut [u8],
) -> Result<usize, Refusal>
    ensures { MergeOf depth ours.now theirs.now joined.old bytes.old (answer_of result, joined.new, bytes.new) }
{
    let n = join(depth, ours, theirs, joined)?;
    write(depth, &joined[..n], bytes)
}
