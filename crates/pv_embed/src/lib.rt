//! The engine in other programs: one site, for a host that carries its messages and writes its journal.
#![tactic(auto)]

mod asked;
mod fault;
mod hosted;
mod laws;
mod made;

pub use asked::{Outcome, OutcomeFault};
pub use fault::{OpenFault, ReadFault, ReceiveFault, SubmitFault};
pub use hosted::HostedSite;
pub use laws::{files_hold_what_was_let_out, hosted_sites_stay_up, new_files_are_journals};
pub use made::Output;
pub use pv_host::{EMPTY_JOURNAL, HostWrite};
pub use pv_site::{Note, Shown};
pub use pv_wire::{Envelope, encode};
