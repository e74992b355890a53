//! Several rings at once: the next message that one of them holds, and a message to one of them.
#![tactic(auto)]

mod posting;
mod taking;

pub use posting::post_to;
pub use taking::{Found, take_among};
