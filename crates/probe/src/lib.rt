// Every public call for tests and benchmarks that link an archive: each fills an answer buffer of at least 8 words, and with a shorter one does nothing.
#![tactic(auto)]

mod inner;
pub mod on_bits;
pub mod on_blocks;
pub mod on_cells;
pub mod on_df;
pub mod on_moves;
pub mod on_records;
pub mod on_sets;
pub mod on_text;
pub mod on_turns;
