//! Laws of events: each is some acts, so what holds of acts holds of every run, wherever sites stop. The functions do nothing: each
//! states a law.
#![tactic(auto)]

mod corners;
mod events;
mod examples;
mod runs;
mod starts;

pub use corners::{
    faults_in_starts, faults_outlast_appends, numbers_after_restart, promises_renew_grants,
    shared_is_readable,
};
pub use events::events_are_acts;
pub use examples::{
    doubt_is_readable, events_are_well_formed, much_happens, two_sites_know, two_sites_know_abort,
};
pub use runs::{no_two_outcomes_in_runs, runs_are_reached};
pub use starts::{starts_find_sound_records, starts_of_texts_find_sound_records};
