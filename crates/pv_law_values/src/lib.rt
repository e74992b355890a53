//! Laws of assignments, of the values that records show, also with one more record at their end, and of the serial run. The functions do
//! nothing: each states a law.
#![tactic(auto)]

mod assignments;
mod records;
mod serial;
mod shown;
mod values;

pub use assignments::{
    cut_is_of_the_list, fronts_are_heeded, heeding_changes_nothing, known_outcomes_part_nothing,
};
pub use records::{outcomes_stay, promises_stay};
pub use serial::{
    declared_before_all, replies_in_its_turn, run_in_two, runs_in_its_turn, serial_is_fixed,
    unassigned_stays,
};
pub use shown::{
    outcomes_settle_values, promises_write_values, shown_values_are_the_only_ones,
    starts_change_no_value,
};
pub use values::{
    comes_from_newest_write, items_are_fixed, new_values_are_fixed, one_more_record,
    outcomes_are_all_that_counts, replies_are_fixed, settling_loses_nothing, shown_are_fixed,
};
