//! Small scripts of one event a line: the lines that count, their words, and what single words spell; why a line is refused, and how a command over such a script
//! ends.
#![tactic(auto)]

mod cause;
mod end;
mod lines;
mod refusing;
mod spelled;
mod words;

pub use cause::{Cause, LineFault};
pub use end::ScriptEnd;
pub use lines::Lines;
pub use refusing::refusal;
pub use spelled::{mode_in, number_in, truth_in, txn_in};
pub use words::words_in;
