//! How a command over a small script ends: it reads its input, and writes one answer to it, all at once.
#![tactic(auto)]

mod answer;

pub use answer::write_answer;
