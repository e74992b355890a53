//! Laws of which bytes are a journal, with which contents, and where it shows that others are none. The functions do nothing: each states a law.
#![tactic(auto)]

mod journals;

pub use journals::{contents_are_those_of_the_journal, one_journal};
