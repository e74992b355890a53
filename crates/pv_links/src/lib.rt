//! Rings from each of several sites to each, one's own among them: the ends of all, in rows.
#![tactic(auto)]

mod linking;
mod rows;

pub use linking::link_all;
pub use rows::{new_rows, push_to};
