//! The histories of all sites made one list of events, in the order of stamps, with the lines that they print.
#![tactic(auto)]

mod events;
mod lines;
mod merging;
mod moment;
mod numbers;
mod run;

pub use run::{Run, merge};
