//! The law that every run agrees with the serial run. The functions do nothing: each states a law.
#![tactic(auto)]

mod runs;
mod steps;
mod worlds;

pub use runs::{reached_worlds_agree, recorded_outcomes_lose_nothing, replies_are_serial};
pub use steps::{runs_begin_right, steps_keep_sequence, steps_keep_support, steps_keep_values};
pub use worlds::{kept_worlds_agree, orderly_worlds_agree};
