//! The locks of a site: which transaction holds which items, in which mode, and for how long.
#![tactic(auto)]

mod held;
mod holders;
mod locks;
mod plan;

pub use locks::Locks;
pub use plan::{Change, GrantPlan, LockError};
