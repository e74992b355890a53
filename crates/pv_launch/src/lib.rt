//! Sites launched over the disks of a bay: each disk is handed out and, if all are empty, formatted, and its site is opened on it.
#![tactic(auto)]

mod asking;
mod beginning;
mod given_up;
mod launching;
mod laws;
mod not_launched;
mod not_started;
mod starting;

pub use launching::launch;
pub use laws::launched_sites_are_numbered;
pub use not_launched::NotLaunched;
pub use not_started::NotStarted;
pub use starting::start;
