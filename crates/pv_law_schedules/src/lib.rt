//! Laws on the texts of schedules and of live scripts, and on what clients of live scripts want. The functions do nothing: each states a law.
#![tactic(auto)]

mod texts;
mod wishes;

pub use texts::{
    no_fault, no_live_fault, one_fault, one_live_script, one_schedule, some_live_script_or_fault,
    some_schedule_or_fault,
};
pub use wishes::wishes_are_in_place;
