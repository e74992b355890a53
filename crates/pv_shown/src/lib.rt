//! A site's box in a turn: workers visit it, and it shows what it was at first and what its history has.
#![tactic(auto)]

mod crossing;
mod shown;
mod turns;

pub use crossing::shown_cross_threads;
pub use shown::{Shown, Sight};
