// A list shifted along each axis, modulo the root's side, by descent through target cells: the move's engine.
// It has no public call; `inner` is for the crate of the move call.
#![tactic(auto)]

pub mod inner;
