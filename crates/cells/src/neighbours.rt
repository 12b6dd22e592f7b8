// The neighbour address: a step along each axis, added on the bits of that axis.
ghost use Rattle.std.specs.Prelude.{◌≡◌, ℕ, true, ◌↔◌};
ghost use Rattle.cells.specs.Place.{axes};
ghost use Rattle.cells.specs.Refusals.{answer_of};
ghost use Rattle.cells.specs.Neighbour.{IsDirection, NeighbourOf};
ghost use Rattle.cells.specs.Inner.{IsStep, OnAxis, OneStep};

use crate::inner::{is_proper, level_of, pow8};
use crate::{DEEPEST, Refusal};

// Whether d is a step: -1, 0 or 1.
fn is_step(d: i32) -> bool
    ensures { (result ≡ true) ↔ IsStep d }
{
    matches!(d, -1 | 0 | 1)
}

// Whether three numbers are a direction: each is a step, and not all are 0.
fn is_direction(dx: i32, dy: i32, dz: i32) -> bool
    ensures { (result ≡ true) ↔ IsDirection (axes dx dy dz) }
{
    is_step(dx) && is_step(dy) && is_step(dz) && (dx, dy, dz) != (0, 0, 0)
}

// One step along one axis. `mask` has the axis's bit in each label of the code: the labels 11..1 for x, 22..2 for y, 44..4 for z.
// - At the root's border the axis's bits are all 1 (forth) or all 0 (back): the step leaves the root, and there is no code.
// - All other bits are filled with ones, so that a carry runs through them from the axis's bit of a label to that of the label before.
// - The step is added: forth 1, back the two's complement of one, which is all bits of the axis.
// - Of the sum the axis's bits are taken; the other bits stay as they were.
// So r742 by (-1, +1, +1), in labels:
//     x back:   742 filled is 766, and 766 + 111 = 1077, whose x bits are 011; with the other bits of 742 that is 653
//     y forth:  653 filled is 757, and 757 + 1 = 760, whose y bits are 220; with the other bits of 653 that is 671
//     z forth:  671 filled is 773, and 773 + 1 = 774, whose z bits are 444; with the other bits of 671 that is 675
fn step(mask: u32, code: u32, d: i32) -> Option<u32>
    ensures { (a k i : ℕ) → OnAxis a k i code mask → IsStep d → OneStep a k i d result }
{
    if d == 0 {
        return Some(code);
    }
    let (one, border) = if d == -1 { (mask, 0) } else { (1, mask) };
    if code & mask == border {
        return None;
    }
    let sum = (code | !mask).wrapping_add(one);
    Some((sum & mask) | (code & !mask))
}

// The cell of the same level displaced by its own side; refused for the depth, the code, the direction, and where it lies outside the root.
// A step along x, then y, then z. The code's leading one stands at a place 3k, as the x bit of each label does: the masks end before it. The root has no label, so
// its masks are 0 and each step leaves it.
pub fn neighbour(depth: u32, code: u32, dx: i32, dy: i32, dz: i32) -> Result<u32, Refusal>
    ensures { NeighbourOf depth code (axes dx dy dz) (answer_of result) }
{
    if DEEPEST < depth {
        return Err(Refusal::Depth);
    }
    if !is_proper(depth, code) {
        return Err(Refusal::NoCell);
    }
    if !is_direction(dx, dy, dz) {
        return Err(Refusal::NoDirection);
    }
    // the labels 11..1, as many as the code has
    let ones = (pow8(level_of(depth, code)) - 1) / 7;
    let Some(x) = step(ones, code, dx) else {
        return Err(Refusal::Outside);
    };
    let Some(y) = step(2 * ones, x, dy) else {
        return Err(Refusal::Outside);
    };
    let Some(z) = step(4 * ones, y, dz) else {
        return Err(Refusal::Outside);
    };
    Ok(z)
}
