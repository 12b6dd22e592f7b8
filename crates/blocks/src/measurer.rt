// The volume of a stored file, without a copy of its list.
ghost use Rattle.cells.specs.Refusals.{answer_of};
ghost use Rattle.blocks.specs.Calls.{StoredVolumeOf};

use crate::inner::held::holding_of;
use cells::Refusal;

// How many voxels are black in the list that a file holds; refused for its blocks and for the list.
pub fn stored_volume(bytes: &[u8]) -> Result<u32, Refusal>
    ensures { StoredVolumeOf bytes.now (answer_of result) }
{
    let held = holding_of(bytes)?;
    Ok(held.voxels)
}
