//! A live script run over the disks of a bay, and the text of the run written.
#![tactic(auto)]

mod live_end;
mod living;
mod printing;
mod running;
mod status;
mod telling;
mod transcribing;

pub use live_end::LiveEnd;
pub use living::read_and_live;
pub use status::status_of_live;
