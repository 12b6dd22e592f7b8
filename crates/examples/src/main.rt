// Runs the examples of documents 01 and 02 and prints a line for each: the call and its inputs, then number, place and list, and what comes beside them.
#![tactic(auto)]

mod on_blocks;
mod on_df;
mod on_moves;

use picturing::inner::on_bits;
use printing::inner::{on_cells, on_records, on_sets, on_text, on_turns};
use std::io;

fn main(rt: HostRuntime) -> io::Result<()> {
    on_cells::run(&rt)?;
    on_records::run(&rt)?;
    on_sets::run(&rt)?;
    on_moves::run(&rt)?;
    on_moves::run_metres(&rt)?;
    on_blocks::run(&rt)?;
    on_text::run(&rt)?;
    on_df::run(&rt)?;
    on_turns::run(&rt)?;
    on_bits::run(&rt)
}
