// Cells of a root cube by their codes: document 01, "Cells and codes" and "Neighbours".
// A host calls `place`, `code` and `neighbour`; `inner` is for the crates above.
#![tactic(auto)]

mod corners;
pub mod inner;
mod neighbours;
mod refusals;

pub use corners::{Corner, code, place};
pub use neighbours::neighbour;
pub use refusals::{Fault, NoWholeMove, Refusal};
use std::fmt;

// The greatest depth of a root cube.
pub const DEEPEST: u32 = 10;

// What a call tells, in the numbers of the table: 0 for success or the number of a refusal, the place and the list. Calls give a Result; this is how it is told to C.
#[derive(Clone, Copy)]
pub struct Answer {
    pub number: u32,
    pub place: u64,
    pub list: u32,
}

impl fmt::Display for Answer {
    fn fmt<W: fmt::Write>(&self, f: &mut fmt::Formatter<W>) -> fmt::Result {
        write!(
            f,
            "number {} place {} list {}",
            self.number, self.place, self.list
        )
    }
}
