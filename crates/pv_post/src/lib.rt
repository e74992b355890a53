//! Rings between two threads, by which sites and clients pass messages on. A plan of faults says which messages a ring loses and
//! which count twice.
#![tactic(auto)]

mod fault_plan;
mod inlet;
mod outlet;
mod posted;
mod ring;

pub use fault_plan::FaultPlan;
pub use inlet::In;
pub use outlet::Out;
pub use posted::Posted;
pub use ring::{PLACES, pair, places_of_a_ring};
