//! Lists of cases, however a polyvalue is held: what they name, their table of values or the first thing that is wrong with them, and choices between two values.
#![tactic(auto)]

mod copy;
mod difference;
mod laws;
mod meetings;
mod names;
mod sure;
mod table;
mod two;

pub use copy::copy_cases;
pub use difference::first_difference;
pub use laws::{
    equal_cases_are_one, no_canonical_fault, no_join_fault, one_canonical_fault, one_join_fault,
    some_canonical_fault, some_join_fault,
};
pub use names::{names_of, ordered, push_names};
pub use sure::is_sure;
pub use table::{Table, table_of};
pub use two::{case_under, settled_value, sure_value, two_values};
