//! Scripts of an outbox: what their lines say, or the first line at fault and why.
#![tactic(auto)]

mod cases;
mod condition;
mod event;
mod fields;
mod line;
mod script;

pub use condition::read_condition;
pub use event::Event;
pub use line::read_line;
pub use script::{ScriptError, read_script};
