// All examples of bits.
use crate::inner::{on_conversions, on_lookups, on_moving, on_operations};
use std::io;

pub fn run(rt: &impl Print) -> io::Result<()> {
    on_conversions::run(rt)?;
    on_operations::run(rt)?;
    on_moving::run(rt)?;
    on_lookups::run(rt)
}
