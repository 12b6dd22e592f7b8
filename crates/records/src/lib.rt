// Lists of leaves: document 01, "Lists" and "Neighbours".
// A host calls `check`, `lookup`, `volume`, `met` and `met_at`; `inner` is for the crates above.
#![tactic(auto)]

mod checks;
pub mod inner;
mod lookups;
mod meetings;

pub use checks::{check, volume};
pub use lookups::{Finding, lookup};
pub use meetings::{met, met_at};
