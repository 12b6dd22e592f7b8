// The calls for the C controller in the cab: on numbers and bytes, each returning number x 2^32 + place.
#![tactic(auto)]

ghost use Rattle.std.specs.Prelude.{◌≡◌};
ghost use Rattle.blocks.specs.Calls.{BlockCheckOf, StoredVolumeOf};
ghost use Rattle.cells.specs.Answer.{answer};
ghost use Rattle.cells.specs.Neighbour.{NeighbourOf};
ghost use Rattle.cells.specs.Place.{axes};
ghost use Rattle.cab.specs.Packed.{packed, Packed};

use blocks::{check_blocks, stored_volume};
use cells::{Answer, neighbour};

// 2^32, by which the number stands before the place, and the greatest place that fits behind it.
const PLACES: u64 = 4294967296;

const LAST_PLACE: u64 = PLACES - 1;

// The number and the place of an answer as one number.
fn pack(number: u32, place: u64) -> u64
    ensures { result ≡ packed (answer number place 0) }
{
    let number = number as u64;
    if LAST_PLACE < place {
        return number * PLACES + LAST_PLACE;
    }
    number * PLACES + place
}

// The neighbour address.
pub fn cab_neighbour(depth: u32, code: u32, dx: i32, dy: i32, dz: i32) -> u64
    ensures { Packed (NeighbourOf depth code (axes dx dy dz)) result }
{
    let next = Answer::from(neighbour(depth, code, dx, dy, dz));
    pack(next.number, next.place)
}

// The block check.
pub fn cab_check_blocks(bytes: &[u8]) -> u64
    ensures { Packed (BlockCheckOf bytes.now) result }
{
    let checked = Answer::from(check_blocks(bytes));
    pack(checked.number, checked.place)
}

// The volume of a stored file.
pub fn cab_stored_volume(bytes: &[u8]) -> u64
    ensures { Packed (StoredVolumeOf bytes.now) result }
{
    let measured = Answer::from(stored_volume(bytes));
    pack(measured.number, measured.place)
}
