//! What a program in another language holds of the engine: a slot, closed or with a world, a site or an outbox in it, which C sees as a flag and a pointer.
#![tactic(auto)]

mod bytes;
mod faults;
mod given;
mod info;
mod journal_info;
mod opening;
mod outbox;
mod outbox_bytes;
mod outputs;
mod parts;
mod refused;
mod site;
mod tags;
mod world;

pub use bytes::ByteSite;
pub use faults::{NotNext, ValueFault};
pub use given::Given;
pub use info::SiteInfo;
pub use journal_info::JournalInfo;
pub use outbox::OutboxSlot;
pub use outputs::REPORT;
pub use refused::Refused;
pub use site::SiteSlot;
pub use world::WorldSlot;
