//! Laws on polyvalues: their cases, the transactions that these name, and choices. The functions do nothing: each states a law.
#![tactic(auto)]

mod existence;
mod polyvalue;

pub use existence::{one_choice, one_names, some_canonical, some_choice, some_names};
pub use polyvalue::{canonical_is_sound, names_what_it_depends_on, one_canonical};
