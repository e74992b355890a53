//! Laws of when a transaction commits, and of what a step leaves alone. The functions do nothing: each states a law.
#![tactic(auto)]

mod commits;
mod examples;
mod frames;
mod votes;

pub use commits::{undisturbed_transactions_commit, undisturbed_transactions_of_texts_commit};
pub use examples::{doubtful_write_is_narrow, transfer_is_undisturbed};
pub use frames::steps_leave_others;
pub use votes::votes_stay_narrow;
