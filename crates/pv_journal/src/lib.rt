//! A journal on a disk: records that a crash at any moment leaves whole, or as they were before.
#![tactic(auto)]

mod journal;
mod log;
mod memory;
mod open_log;
mod reading;

pub use journal::{Journal, format, look};
pub use log::make_frame;
pub use memory::{armed_journals, formatted_journals};
pub use open_log::OpenLog;
pub use reading::{
    Gate, agreement, gate_at, number_in, read_content, read_from, read_record, size_of_disk,
};
