//! A world of sites in one process: the sites over logs in two areas on disks in memory, the messages between them, and the events of a schedule, one after another.
#![tactic(auto)]

mod cell;
mod error;
mod events;
mod giving;
mod laws;
mod lines;
mod mail;
mod order;
mod report;
mod restart;
mod room;
mod sent;
mod spare;
mod spelled;
mod total;
mod world;

pub use error::WorldError;
pub use world::World;
