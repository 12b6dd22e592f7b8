// Why a call refuses, and where; and the numbers of the table that tell it.
ghost use Rattle.std.specs.Prelude.{◌≡◌};
ghost use Rattle.cells.specs.Answer.{given};
ghost use Rattle.cells.specs.Refusals.{fault_number, no_move_place, refused, answer_of};

use crate::Answer;

// A fault of a leaf in a list: no proper code, a start before the end of the leaf before it, or the last of eight siblings, which are one cell.
#[derive(Clone, Copy, PartialEq, Eq, Debug)]
pub enum Fault {
    NotProper,
    Early,
    EightSiblings,
}

// What makes a move in metres none in whole voxels: the edge number, or the first coordinate that is a NaN, an infinity or, rounded, outside 32 bits.
#[derive(Clone, Copy, PartialEq, Eq, Debug)]
pub enum NoWholeMove {
    X,
    Y,
    Z,
    EdgeNumber,
}

// Why a call refuses.
#[derive(Clone, Copy, PartialEq, Eq, Debug)]
pub enum Refusal {
    // The depth is above the call's greatest, or not that of a file.
    Depth,
    // The first leaf with a fault: its index, and which of the call's lists it stands in.
    Leaf(Fault, usize, u32),
    // A move in metres is none in whole voxels.
    NoMove(NoWholeMove),
    // A code is not proper.
    NoCell,
    // A corner and a level are not proper.
    NoCorner,
    // A voxel lies outside the root.
    NoVoxel,
    // Three numbers are no direction.
    NoDirection,
    // A turn number is too great.
    NoTurn,
    // A neighbour lies outside the root.
    Outside,
    // A move leaves the root: the first leaf that does, of bits the first black voxel, and the call's list that has it.
    Strays(usize, u32),
    // A buffer is too short: the leaves or bytes needed.
    TooShort(usize),
    // A stored file is unsound: the first wrong block, or the count of whole blocks.
    BadBlock(usize),
    // A DF text is not acceptable: the first byte after which nothing can follow that makes it so.
    BadText(usize),
}

impl Fault {
    // Its number in the table.
    pub fn number(self) -> u32
        ensures { result ≡ fault_number self }
    {
        match self {
            Fault::NotProper => 2,
            Fault::Early => 3,
            Fault::EightSiblings => 4,
        }
    }
}

impl NoWholeMove {
    // Its place beside the number of the table.
    pub fn place(self) -> u64
        ensures { result ≡ no_move_place self }
    {
        match self {
            NoWholeMove::X => 0,
            NoWholeMove::Y => 1,
            NoWholeMove::Z => 2,
            NoWholeMove::EdgeNumber => 3,
        }
    }
}

impl From<Refusal> for Answer {
    ghost from_gives = { λ r a. a ≡ refused r };

    fn from(refusal: Refusal) -> Answer {
        let (number, place, list) = match refusal {
            Refusal::Depth => (1, 0, 0),
            Refusal::Leaf(fault, leaf, list) => (fault.number(), leaf as u64, list),
            Refusal::NoMove(bad) => (5, bad.place(), 0),
            Refusal::NoCell | Refusal::NoCorner | Refusal::NoVoxel => (6, 0, 0),
            Refusal::NoDirection | Refusal::NoTurn => (6, 1, 0),
            Refusal::Outside => (7, 0, 0),
            Refusal::Strays(first, list) => (7, first as u64, list),
            Refusal::TooShort(needed) => (8, needed as u64, 0),
            Refusal::BadBlock(block) => (9, block as u64, 0),
            Refusal::BadText(byte) => (10, byte as u64, 0),
        };
        Answer {
            number,
            place,
            list,
        }
    }
}

impl Answer {
    // Success with its place.
    pub fn success(place: u64) -> Answer
        ensures { result ≡ given place }
    {
        Answer {
            number: 0,
            place,
            list: 0,
        }
    }
}

impl From<Result<u32, Refusal>> for Answer {
    ghost from_gives = { λ r a. a ≡ answer_of r };

    fn from(told: Result<u32, Refusal>) -> Answer {
        match told {
            Ok(place) => Answer::success(place as u64),
            Err(refusal) => Answer::from(refusal),
        }
    }
}

impl From<Result<usize, Refusal>> for Answer {
    ghost from_gives = { λ r a. a ≡ answer_of r };

    fn from(told: Result<usize, Refusal>) -> Answer {
        match told {
            Ok(place) => Answer::success(place as u64),
            Err(refusal) => Answer::from(refusal),
        }
    }
}
