// Moves, in whole voxels or in metres: document 01, "Moves". The move call is in the crate above; `inner` turns a move into whole voxels for it.
#![tactic(auto)]

pub mod inner;

// The greatest edge number.
pub const FINEST: u32 = 10;

// A move in metres: three coordinates, and the edge number: a voxel's edge is 2^-s metres.
#[derive(Clone, Copy)]
pub struct Metres {
    pub x: f64,
    pub y: f64,
    pub z: f64,
    pub s: u32,
}

#[derive(Clone, Copy)]
pub enum Move {
    Voxels(i32, i32, i32),
    Metres(Metres),
}
