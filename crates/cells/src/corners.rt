// A cell address as coordinates and level, and back.
ghost use Rattle.std.specs.Prelude.{◌≡◌, ◌<◌, ◌≤◌};
ghost use Rattle.cells.specs.Answer.{deepest};
ghost use Rattle.cells.specs.Refusals.{answer_of};
ghost use Rattle.cells.specs.Place.{axes};
ghost use Rattle.cells.specs.Corners.{place_answer, PlaceOf, CodeOf, is_corner};
ghost use Rattle.cells.specs.Inner.{on_grid};

use crate::inner::{coordinate, is_proper, level_of, number_of, pow2, pow8};
use crate::{DEEPEST, Refusal};

// The least coordinates of a cell, and its level.
#[derive(Clone, Copy, PartialEq, Eq, Debug)]
pub struct Corner {
    pub x: u32,
    pub y: u32,
    pub z: u32,
    pub level: u32,
}

// The corner and the level of a code.
pub fn place(depth: u32, code: u32) -> Result<Corner, Refusal>
    ensures { PlaceOf depth code (place_answer result) }
{
    if DEEPEST < depth {
        return Err(Refusal::Depth);
    }
    if !is_proper(depth, code) {
        return Err(Refusal::NoCell);
    }
    let x = coordinate(1, depth, code);
    let y = coordinate(2, depth, code);
    let z = coordinate(4, depth, code);
    let level = level_of(depth, code);
    Ok(Corner { x, y, z, level })
}

// Whether a coordinate lies in a root of side w and is a multiple of s.
fn on_grid(w: u32, s: u32, x: u32) -> bool
    requires { 0 < s }
    ensures { result ≡ on_grid w s x }
{
    x < w && x % s == 0
}

// Whether a corner and a level are proper.
#[tactic(auto, unfolding(crate::specs::Corners::is_corner))]
fn is_corner(depth: u32, x: u32, y: u32, z: u32, level: u32) -> bool
    requires { depth ≤ deepest }
    ensures { result ≡ is_corner depth (axes x y z) level }
{
    if depth < level {
        return false;
    }
    let root = pow2(depth);
    let side = pow2(depth - level);
    on_grid(root, side, x) && on_grid(root, side, y) && on_grid(root, side, z)
}

// The code of a corner and a level, where they are proper.
pub fn code(depth: u32, x: u32, y: u32, z: u32, level: u32) -> Result<u32, Refusal>
    ensures { CodeOf depth (axes x y z) level (answer_of result) }
{
    if DEEPEST < depth {
        return Err(Refusal::Depth);
    }
    if !is_corner(depth, x, y, z, level) {
        return Err(Refusal::NoCorner);
    }
    let side = pow2(depth - level);
    Ok(pow8(level) + number_of(level, x / side, y / side, z / side))
}
