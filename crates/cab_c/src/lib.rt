// The archive for the C controller in the cab: the calls of the crate cab under the same names, as include/cab.h declares them.
#![tactic(auto)]

ghost use Rattle.blocks.specs.Calls.{BlockCheckOf, StoredVolumeOf};
ghost use Rattle.cells.specs.Neighbour.{NeighbourOf};
ghost use Rattle.cells.specs.Place.{axes};
ghost use Rattle.cab.specs.Packed.{Packed};

// The neighbour address.
#[unsafe(no_mangle)]
pub extern "C" fn cab_neighbour(depth: u32, code: u32, dx: i32, dy: i32, dz: i32) -> u64
    ensures { Packed (NeighbourOf depth code (axes dx dy dz)) result }
{
    cab::cab_neighbour(depth, code, dx, dy, dz)
}

// The block check.
#[unsafe(no_mangle)]
pub extern "C" fn cab_check_blocks(bytes: &[u8]) -> u64
    ensures { Packed (BlockCheckOf bytes.now) result }
{
    cab::cab_check_blocks(bytes)
}

// The volume of a stored file.
#[unsafe(no_mangle)]
pub extern "C" fn cab_stored_volume(bytes: &[u8]) -> u64
    ensures { Packed (StoredVolumeOf bytes.now) result }
{
    cab::cab_stored_volume(bytes)
}
