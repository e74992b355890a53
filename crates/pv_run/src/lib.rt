//! What a run of a schedule in memory writes, and the promises that it keeps: its lines as text or as JSON, alone or in a trace, or their summary, and the status.
#![tactic(auto)]

mod answers;
mod commands;
mod form;
mod printed;
mod running;
mod said;
mod status;
mod summary;
mod text_end;
mod write_end;

pub use answers::{
    answers_are_one, answers_exist, promises_are_kept, refuse, run_text, summaries_are_one,
    traces_have_each_line, write_summary_of_number,
};
pub use commands::{
    read_and_run, status_of_big, status_of_make, status_of_run, status_of_unread, write_made,
};
pub use form::Form;
pub use printed::{Printed, run_to_lines};
pub use running::run;
pub use status::Status;
pub use summary::sum_up;
pub use text_end::{LongText, TextEnd};
pub use write_end::WriteEnd;
