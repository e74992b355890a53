//! Traces, which are a schedule's lines with what each of them printed, and whether the reports of a trace agree with the serial runs of their orders.
#![tactic(auto)]

mod auditing;
mod begun;
mod below;
mod cases;
mod difference;
mod entries;
mod first;
mod laws;
mod lists;
mod outcomes;
mod parts;
mod printed;
mod read;
mod refused;
mod report;
mod shown;
mod sums;
mod told;
mod trace;
mod values;
mod verdict;
mod words;

pub use auditing::audit;
pub use laws::{
    no_fault_of_a_trace, one_trace, printed_lines_are_entries, schedules_name_items_apart,
};
pub use read::read_trace;
pub use trace::{Trace, TraceError, TracePart};
pub use verdict::Verdict;
