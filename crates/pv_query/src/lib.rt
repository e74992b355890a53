//! Answers that depend on outcomes: the possible ones, the certain one, and sums.
#![tactic(auto)]

mod adding;
mod answers;
mod repeats;

pub use adding::{SumError, sums};
pub use answers::{certain, possible};
