//! The history of a site in a box: what it took in, when by its clock, and what came of it.
#![tactic(auto)]

mod entry;
mod lines;

pub use entry::{Entry, MAX_ENTRIES, Seen, Taken};
pub use lines::line_of;
