// Where a voxel comes to, coordinate by coordinate.
ghost use Rattle.std.specs.Prelude.{ℕ, ◌^◌, ◌<◌, ◌≤◌, ℤ, neg_ℤ, IfSome};
ghost use Rattle.moves.specs.Inner.{Splits, AllSplit, parts};
ghost use Rattle.plain.specs.Calls.{deepest_plain};
ghost use Rattle.plain.specs.Inner.{Comes, ComesTo};

use cells::inner::{axis, number_of, pow2};
use moves::inner::{Displacement, Parted};

// The displacement along one axis the other way.
fn opposite(d: Parted) -> Parted
    ensures { (z : ℤ) → Splits z d → Splits (neg_ℤ z) result }
{
    Parted {
        up: d.down,
        down: d.up,
    }
}

// The displacement the other way.
pub fn other_way(d: Displacement) -> Displacement
    ensures { (by : ℕ → ℤ) → AllSplit by (parts d) → AllSplit (λ a. neg_ℤ (by a)) (parts result) }
{
    Displacement {
        x: opposite(d.x),
        y: opposite(d.y),
        z: opposite(d.z),
    }
}

// Where a coordinate comes to, if it stays below the root's side.
fn come(side: u32, x: u32, d: Parted) -> Option<u32>
    ensures { (z : ℤ) → Splits z d → Comes side z x result }
{
    if !d.stays(side, x, 1) {
        return None;
    }
    let place = u64::from(x) + u64::from(d.up) - u64::from(d.down);
    Some(place as u32)
}

// Where a voxel comes to, if it stays in the root.
pub fn displace(depth: u32, u: u32, d: Displacement) -> Option<u32>
    requires { depth ≤ deepest_plain }
    ensures root { IfSome result (λ v. v < 8 ^ depth) }
    ensures comes { (by : ℕ → ℤ) → AllSplit by (parts d) → ComesTo depth by u result }
{
    let side = pow2(depth);
    let x = come(side, axis(1, depth, u), d.x)?;
    let y = come(side, axis(2, depth, u), d.y)?;
    let z = come(side, axis(4, depth, u), d.z)?;
    Some(number_of(depth, x, y, z))
}
