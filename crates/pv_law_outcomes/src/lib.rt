//! Laws of locks, votes and outcomes in every run: how grants, entries, messages, records and the order fit together, and that no two sites
//! know different outcomes. The functions do nothing: each states a law.
#![tactic(auto)]

mod locks;
mod outcomes;

pub use locks::locks_are_coherent;
pub use outcomes::{
    no_two_outcomes, outcomes_are_decided, outcomes_are_for_ever, what_fits_is_known,
    what_is_open_was_open,
};
