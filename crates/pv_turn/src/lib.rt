//! A value that threads have in turn: a lock with a memory. The value shows a list of entries that only grows, and who takes it finds
//! all entries that were there when they last looked.
//!
//! Only [`Turn::take`] may wait: it has the handle `Wait`. No other call waits for another thread.
#![tactic(auto)]

mod closing;
mod dealing;
mod entries;
mod rule;
mod seat;
mod steps;
mod taking;
mod turn;
mod view;

pub use entries::Entries;
pub use seat::Seat;
pub use turn::Turn;
