//! How a live run is closed, on one thread: rings are emptied, sites tick, what wasn't asked for is asked for, and clients get their lines.
#![tactic(auto)]

mod asking;
mod closing;
mod emptying;
mod ended;
mod lines;
mod standing;

pub use closing::close_round;
pub use ended::Ended;
pub use lines::{lines_of, place_of};
pub use pv_told::{ClientLine, ClientWhat};
pub use standing::boxes_stand_on;
