//! Bytes in and bytes out: where a program's input comes from and where its output goes, each with a count of faults.
#![tactic(auto)]

mod fail_plan;
mod memory;
mod read_end;
mod reading;
mod sink;
mod source;
mod stream;
mod writing;

pub use memory::{MemSink, MemSource};
pub use read_end::ReadEnd;
pub use reading::read_all;
pub use sink::Sink;
pub use source::Source;
pub use stream::{StdSink, StdSource};
pub use writing::write_all;
