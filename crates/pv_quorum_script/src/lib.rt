//! Scripts of deciders: what their lines say, or the first line at fault and why.
#![tactic(auto)]

mod event;
mod fields;
mod line;
mod script;

pub use event::{QuorumEvent, QuorumScript};
pub use script::{QuorumScriptError, read_script};
