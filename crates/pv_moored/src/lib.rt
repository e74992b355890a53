//! A log in two areas on a disk in memory that may be armed: how it is made and opened, and what comes of what fires on it.
#![tactic(auto)]

mod laws;
mod moored;

pub use laws::appends_to_moored_logs;
pub use moored::{Opened, formatted, mended, open_log};
