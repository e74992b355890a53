//! What a live run begins with: a box for each site and a client for each of the script, with the rings between them.
#![tactic(auto)]

mod boxing;
mod meeting;
mod opening;
mod scripts;

pub use opening::{Opened, open_all};
pub use scripts::live_scripts_are_small;
