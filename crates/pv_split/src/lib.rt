//! Programs over polyvalues: computed once for each alternative, and joined again.
#![tactic(auto)]

mod columns;
mod effects;
mod joining;
mod laws;
mod outcomes;
mod sure;
mod writes;

pub use joining::{Joined, SplitError, split};
pub use laws::{leaves_what_is_not_written, writes_what_is_left};
pub use pv_tree::Read;
