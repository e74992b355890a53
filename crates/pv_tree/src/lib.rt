//! Polyvalues: values that depend on the outcomes of named transactions, as decision trees in lists of nodes, beside their canonical cases.
#![tactic(auto)]

mod branches;
mod choice;
mod laws;
mod names;
mod nodes;
mod poly;
mod read;
mod reading;
mod settling;
mod table;
mod tree;
mod two;

pub use laws::equal_polyvalues_are_one;
pub use poly::Poly;
pub use pv_base::{Case, CaseError, NameError};
pub use read::Read;
