//! A coordinator's entries: what a site knows of the transactions that it has begun and not yet decided.
#![tactic(auto)]

mod answer;
mod coord;
mod entry;
mod error;
mod laws;
mod reads;
mod stage;
mod taken;

pub use answer::{BeginChange, Expiry, GrantChange, GrantTaken, Vote};
pub use coord::Coord;
pub use error::CoordError;
pub use laws::a_planned_entry_is_the_protocols;
pub use pv_tree::Read;
