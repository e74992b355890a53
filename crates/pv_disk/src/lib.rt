//! Disks that may crash between any two moments, and logs that outlive it.
#![tactic(auto)]

mod arms;
mod bay;
mod bay_error;
mod berth;
mod disk;
mod disk_error;
mod file_disk;
mod folder_bay;
mod image;
mod list_log;
mod log;
mod log_error;
mod mem_bay;
mod mem_disk;

pub use bay::Bay;
pub use bay_error::BayError;
pub use disk::Disk;
pub use disk_error::{DiskError, LookError};
pub use file_disk::FileDisk;
pub use folder_bay::FolderBay;
pub use list_log::{AppendFail, ListLog};
pub use log::Log;
pub use log_error::LogError;
pub use mem_bay::MemBay;
pub use mem_disk::MemDisk;
