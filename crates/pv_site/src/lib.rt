//! One site of the database: what it makes of each input, over any log.
#![tactic(auto)]

mod answers;
mod appending;
mod committing;
mod crashes;
mod crossing;
mod deciding;
mod doubting;
mod error;
mod granting;
mod input;
mod learning;
mod lists;
mod locking;
mod numbers;
mod opening;
mod parts;
mod recovered;
mod refusing;
mod site;
mod sure;
mod surplus;
mod taking;
mod ticking;

pub use crashes::crashes_leave_before_or_after;
pub use crossing::sites_cross_threads;
pub use error::{OpenError, ResumeError, StepError};
pub use input::{Cause, Given, Input, Note, Outgoing, Shown, Step};
pub use lists::lists_fail_as_planned;
pub use opening::{logs_tell_of_records, setup_is_in_range};
pub use pv_tree::Read;
pub use pv_wire::{Message, NoCause};
pub use recovered::Recovered;
pub use site::Site;
