//! Laws of one site's step, with examples. The functions do nothing: each states a law.
#![tactic(auto)]

mod cases;
mod examples;
mod keyed;
mod ranges;
mod steps;
mod values;
mod width;

pub use cases::{
    ask_cases, denied_cases, granted_cases, lock_cases, no_cases, outcome_cases, prepare_cases,
    request_cases, start_cases, yes_cases,
};
pub use examples::{alone_it_commits, in_doubt_it_asks};
pub use keyed::{memory_stays_in_order, one_less_is_gone, one_more_is_found};
pub use ranges::{
    plans_are_in_range, programs_stay_in_range, records_are_spelled, replies_are_in_range,
    sends_are_in_range, sends_are_spelled, shown_values_are_in_range, starts_are_sound,
    steps_stay_sound,
};
pub use steps::{
    appends_what_it_may, denials_name_the_least, few_inputs_append, numbers_rise, only_grants_place,
};
pub use values::{
    epochs_change_no_value, names_are_listed, new_values_are_computed, outcomes_settle,
    promises_are_choices, replies_are_computed, shown_has_the_value, shown_is_canonical,
    shown_names_no_known,
};
pub use width::{
    no_records_are_narrow, only_written_values_widen, shown_values_are_narrow, starts_keep_width,
    steps_keep_width,
};
