// The emitter: black and white pieces of voxel numbers, in rising order, become the good list of the black ones.
// It has no public call; `inner` is for the crates whose calls write lists.
#![tactic(auto)]

pub mod inner;
