// A plain engine for the test bench: ticket 5 of document 02. One bit a voxel, in voxel-number order, the lowest bit of a byte first; depths 0 to 6.
// Each call is a loop over the voxels; `inner` has what the loops do with one voxel. A bit buffer has max(1, 8^D / 8) bytes or more; no call reads or writes a byte beyond these.
#![tactic(auto)]

mod conversions;
mod inner;
mod lookups;
mod moving;
mod operations;

pub use conversions::{to_bits, to_list};
pub use lookups::lookup_bits;
pub use moving::move_bits;
pub use operations::{intersect_bits, join_bits, subtract_bits};

// The greatest depth of this engine: 32 KiB of bits.
const DEEPEST_PLAIN: u32 = 6;
