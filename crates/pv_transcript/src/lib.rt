//! The text of a run on threads: the schedule that it came to, what its clients heard, and what that schedule prints.
#![tactic(auto)]

mod catalog;
mod event;
mod heard;
mod parts;
mod pieces;

pub use catalog::push_catalog;
pub use event::push_event;
pub use heard::{
    push_heard, push_no_memory, push_peeked, push_peeked_down, push_peeked_locked, push_worn,
};
pub use parts::{push_answers, push_clients_heading, push_schedule};
