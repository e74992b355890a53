//! Polyvalues: values that depend on the outcomes of named transactions, as the list of their canonical cases.
#![tactic(auto)]

mod cases;
mod choice;
mod held;
mod laws;
mod poly;
mod read;
mod table;
mod tree;

pub use laws::equal_polyvalues_are_one;
pub use poly::Poly;
pub use pv_base::{Case, CaseError, NameError};
pub use read::Read;
