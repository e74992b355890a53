//! Which case of a participant's step fits: on a lock message, a prepare message, an outcome.
#![tactic(auto)]

mod cases;

pub use cases::{OutcomeCase, PrepareCase, on_lock, on_outcome, on_prepare};
