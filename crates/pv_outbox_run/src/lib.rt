//! The command `outbox`: a script of an outbox is run over one disk in memory, and what its calls answer is written.
#![tactic(auto)]

mod cell;
mod command;
mod laws;
mod run;
mod told;

pub use command::read_and_run;
pub use laws::scripts_keep_outputs;
pub use told::Told;
