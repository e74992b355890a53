//! The command `audit`: it reads a trace, and writes whether the reports in it agree with the serial runs of their orders.
#![tactic(auto)]

mod audit_end;
mod auditing;
mod verdict_text;

pub use audit_end::{AuditEnd, status_of_audit};
pub use auditing::read_and_audit;
