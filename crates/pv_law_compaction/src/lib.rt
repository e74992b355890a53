//! Compaction: what a site has to keep of its records, and that nothing is read otherwise of what it keeps. No program compacts yet. The functions do nothing: each states a law.
#![tactic(auto)]

mod compacted;
mod examples;
mod lists;
mod naive;
mod reading;
mod worlds;

pub use compacted::{compacted_records_are_in_range, compacted_records_stand};
pub use examples::it_is_worked_out;
pub use lists::{
    appended_records_are_stood_for, forgotten_outcomes_may_come_again,
    records_stand_for_themselves, standing_for_is_transitive, what_is_kept_stands_for_all,
};
pub use naive::{naive_ways_dont_stand, order_counts};
pub use reading::{own_commits_are_the_same, promises_are_the_same, shown_values_are_the_same};
pub use worlds::{kept_worlds_agree_too, kept_worlds_read_the_same};
