//! The whole engine in other programs: a world of sites that a host feeds with the lines of a schedule, one after another, and the run of a schedule in memory.
#![tactic(auto)]

mod fault;
mod hosted_world;
mod kept;
mod ran;
mod reading;

pub use fault::WorldFault;
pub use hosted_world::HostedWorld;
pub use ran::{Ran, run};
