//! Lines as text and as JSON.
#![tactic(auto)]

mod answers;
mod cases;
mod json_form;
mod json_lines;
mod json_values;
mod laws;
mod line;
mod pieces;

pub use cases::push_value;
pub use json_form::{json, push_json};
pub use laws::printed_lines_are_text;
pub use line::{print, push_line};
