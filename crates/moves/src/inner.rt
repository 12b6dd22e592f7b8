// INNER: a displacement in natural numbers, the test that each leaf stays, and the shift back to the sources. A host must not call these.
ghost use Rattle.std.specs.Prelude.{◌≡◌, true, false, ◌≤◌, ◌<◌, ℕ, ℤ, neg_ℤ, length, get_or};
ghost use Rattle.cells.specs.Answer.{deepest};
ghost use Rattle.cells.specs.Cell.{proper};
ghost use Rattle.cells.specs.Place.{axes};
ghost use Rattle.records.specs.Record.{Ordered};
ghost use Rattle.moves.specs.Inner.{Splits, AllSplit, parts, keeps, keeps_along, leaf_keeps, Searched, reversed, back};

use cells::inner::{coordinate, level_of, number_of, pow2};
use metres::inner::Steps;

// A displacement along one axis: up - down, one of them 0.
#[derive(Clone, Copy)]
pub struct Parted {
    pub up: u32,
    pub down: u32,
}

// The parts of a signed number.
impl From<i32> for Parted {
    ghost from_gives = { λ d p. Splits d p };

    fn from(d: i32) -> Parted {
        let size = d.unsigned_abs();
        if d < 0 {
            Parted { up: 0, down: size }
        } else {
            Parted { up: size, down: 0 }
        }
    }
}

impl Parted {
    // Whether the s places from x on, displaced, stay below the side.
    pub fn stays(self, side: u32, x: u32, s: u32) -> bool
        ensures { result ≡ keeps side x s self }
    {
        let up = u64::from(self.up);
        let down = u64::from(self.down);
        let from = u64::from(x);
        down <= from + up && from + u64::from(s) + up <= u64::from(side) + down
    }

    // Whether the cell, displaced along one axis, stays in the root.
    #[tactic(auto, using(cells::proofs::Cells::level_le), unfolding(crate::specs::Inner::keeps_along, cells::specs::Cell::side))]
    fn axis_stays(self, b: u32, depth: u32, code: u32) -> bool
        requires { (depth ≤ deepest) × (proper depth code ≡ true) × (0 < b) }
        ensures { result ≡ keeps_along depth b self code }
    {
        let s = pow2(depth - level_of(depth, code));
        self.stays(pow2(depth), coordinate(b, depth, code), s)
    }

    // The displacement reversed, modulo the root's side.
    #[tactic(auto, unfolding(crate::specs::Inner::reversed))]
    fn reverse(self, depth: u32) -> u32
        requires { depth ≤ deepest }
        ensures { result ≡ reversed depth self }
    {
        let side = pow2(depth);
        (self.down % side + (side - self.up % side)) % side
    }

    // The displacement the other way.
    fn opposite(self) -> Parted
        ensures { (z : ℤ) → Splits z self → Splits (neg_ℤ z) result }
    {
        Parted {
            up: self.down,
            down: self.up,
        }
    }
}

// A displacement, by its parts along each axis.
#[derive(Clone, Copy)]
pub struct Displacement {
    pub x: Parted,
    pub y: Parted,
    pub z: Parted,
}

// The parts of a move in whole voxels.
impl From<Steps> for Displacement {
    ghost from_gives = { λ v p. AllSplit (axes v.x v.y v.z) (parts p) };

    fn from(by: Steps) -> Displacement {
        Displacement {
            x: Parted::from(by.x),
            y: Parted::from(by.y),
            z: Parted::from(by.z),
        }
    }
}

impl Displacement {
    // Whether each voxel of the leaf, displaced, stays in the root.
    #[tactic(auto, unfolding(crate::specs::Inner::leaf_keeps))]
    fn leaf_stays(self, depth: u32, code: u32) -> bool
        requires { (depth ≤ deepest) × (proper depth code ≡ true) }
        ensures { result ≡ leaf_keeps depth (parts self) code }
    {
        self.x.axis_stays(1, depth, code)
            && self.y.axis_stays(2, depth, code)
            && self.z.axis_stays(4, depth, code)
    }

    // The index of the first leaf that strays from the root.
    pub fn first_stray(self, depth: u32, list: &[u32]) -> Option<usize>
        requires { (depth ≤ deepest) × Ordered depth 0 list.now }
        ensures { Searched (length list.now) (λ i. leaf_keeps depth (parts self) (get_or list.now i 0) ≡ false) result }
    {
        for (i, &code) in list.iter().enumerate() {
            if !self.leaf_stays(depth, code) {
                return Some(i);
            }
        }
        None
    }

    // The shift that takes each displaced voxel back to where it came from.
    #[tactic(auto, unfolding(crate::specs::Inner::back))]
    pub fn backwards(self, depth: u32) -> u32
        requires { depth ≤ deepest }
        ensures { result ≡ back depth (parts self) }
    {
        number_of(
            depth,
            self.x.reverse(depth),
            self.y.reverse(depth),
            self.z.reverse(depth),
        )
    }

    // The displacement the other way.
    pub fn opposite(self) -> Displacement
        ensures { (d : ℕ → ℤ) → AllSplit d (parts self) → AllSplit (λ a. neg_ℤ (d a)) (parts result) }
    {
        Displacement {
            x: self.x.opposite(),
            y: self.y.opposite(),
            z: self.z.opposite(),
        }
    }
}
