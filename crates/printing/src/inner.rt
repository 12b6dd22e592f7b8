// INNER: for the program `examples`.
pub mod on_cells;
pub mod on_records;
pub mod on_sets;
pub mod on_text;
pub mod on_turns;
pub mod print;
