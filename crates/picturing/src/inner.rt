// INNER: for the program `examples`.
pub mod on_bits;
mod on_conversions;
mod on_lookups;
mod on_moving;
mod on_operations;
