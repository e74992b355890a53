//! Laws of the world and of its runs. The functions here do nothing: each states a law.
#![tactic(auto)]

mod examples;
mod pumps;
mod ranges;
mod runs;
mod sites;
mod steps;
mod texts;

pub use examples::{
    conflict_refuses, fault_in_promise, limit_is_passed, no_room_refuses, no_room_to_start,
    other_grant_counts_for_nothing, restart_loses_grants, silence_expires, site_alone_commits,
    stop_in_commit_record, transfer_commits, unheard_outcome_leaves_doubt,
};
pub use pumps::{messages_are_marked, pump_ends};
pub use ranges::{
    any_runs_stay_in_range, receivers_are_sites, runs_of_texts_stay_in_range, runs_stay_in_range,
    schedules_are_in_range, worlds_stay_in_range,
};
pub use runs::{
    delivered_was_sent, faults_come_anywhere, records_grow, run_is_its_transitions,
    schedules_are_well_formed,
};
pub use sites::{epochs_are_recorded, memories_are_in_order};
pub use steps::{
    down_sites_are_silent, numbers_rise_in_transitions, other_sites_stay, reports_change_nothing,
    silent_checkpoints_are_done, transition_adds_records,
};
pub use texts::lines_are_spelled;
