// Stored blocks: document 01, "Stored blocks". A file is blocks of 512 bytes, each of 128 little-endian words: 0 the block's index, 1 the number of blocks,
// 2 the depth, 3 how many codes the block holds, 4 to 125 the codes, 126 and 127 the check.
// A host calls `check_blocks`, `stored_volume`, `read` and `write`.
#![tactic(auto)]

mod checker;
pub mod inner;
mod measurer;
mod reader;
mod writer;

pub use checker::check_blocks;
pub use measurer::stored_volume;
pub use reader::read;
pub use writer::write;

// The bytes of a block, and the codes that it can hold.
pub const BLOCK_BYTES: usize = 512;

pub const BLOCK_CODES: usize = 122;
// The word of its first code, and those of the check.
const FIRST_CODE: usize = 4;

const CHECK_A: usize = 126;

const CHECK_B: usize = 127;

// The check of a block: A and B.
#[derive(Clone, Copy)]
pub struct Sums {
    pub a: u32,
    pub b: u32,
}

// What was read: how many leaves, and the depth.
#[derive(Clone, Copy, PartialEq, Eq, Debug)]
pub struct Reading {
    pub leaves: usize,
    pub depth: u32,
}
