//! A log on a disk in two areas. A crash at any moment of an append leaves the contents with the new one or without it, and at any moment of a checkpoint, which writes all
//! of them anew, it leaves them all; at any moment of a rewriting it leaves them or those given.
#![tactic(auto)]

mod checkpoint;
mod ckpt_error;
mod ckpt_log;
mod log;
mod memory;
mod open_ckpt;
mod reading;
mod rewrite;
mod roots;
mod writing;

pub use ckpt_error::CkptError;
pub use ckpt_log::{CkptLog, format, look};
pub use memory::{armed_logs, formatted_logs};
pub use open_ckpt::OpenCkpt;
pub use roots::HEADER;
