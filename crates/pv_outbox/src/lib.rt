//! Withheld outputs: each is held back under a condition, and released at most once, when the condition is certain and true.
#![tactic(auto)]

mod candidates;
mod error;
mod facts;
mod laws;
mod memory;
mod opening;
mod outbox;
mod queue;
mod record;
mod waiting;
mod writing;

pub use error::{BoxError, OpenOutbox};
pub use laws::{
    a_stop_leaves_the_record_or_not, contents_tell_records, lives_are_runs,
    none_comes_where_none_is_ready, records_follow_calls,
};
pub use outbox::Outbox;
