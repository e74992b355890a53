//! A log whose journal a host writes: it says which bytes go where in the host's file, and is told when they are there.
#![tactic(auto)]

mod host_log;
mod host_write;
mod hosts;
mod waiting;

pub use host_log::HostLog;
pub use host_write::HostWrite;
pub use hosts::{files_are_journals, groups_fit_their_room, host_logs_never_fail};

/// The file of a new site: a journal without records. The host makes it, and syncs it and its entry in the folder, before it opens the site the first time.
pub const EMPTY_JOURNAL: [u8; 9] = *b"PVJRNL01\0";
