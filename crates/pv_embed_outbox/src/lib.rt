//! An outbox in other programs, for a host that writes its journal: outputs that are held back, released, and let out once their release is in the host's file.
#![tactic(auto)]

mod fault;
mod hosted;
mod laws;
mod release;

pub use fault::{HoldFault, LearnFault, OpeningFault, ReleaseFault, TakeFault};
pub use hosted::HostedOutbox;
pub use laws::outputs_are_let_out_once;
