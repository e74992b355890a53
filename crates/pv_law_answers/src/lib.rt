//! Laws of every run of many sites, wherever they stop: it agrees with the serial run, and answers as that does. The functions do
//! nothing: each states a law.
#![tactic(auto)]

mod examples;
mod numbers;
mod orders;
mod reports;
mod runs;
mod texts;

pub use examples::{
    doubt_gives_two_answers, doubt_has_two_values, outcome_settles_the_doubt,
    wide_reading_is_refused,
};
pub use numbers::{no_grant_comes_back, no_txn_is_begun_twice};
pub use orders::{committed_fit, committed_stand_once};
pub use reports::{reports_show_each_readable, reports_show_serial_values};
pub use runs::{
    commits_answer, each_answer_is_given, reports_agree, settling_keeps_values, what_fits_fitted,
    worlds_agree,
};
pub use texts::{texts_agree, texts_answer};
