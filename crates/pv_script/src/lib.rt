//! Schedules and live scripts as texts: what a text says, or its first malformed line and why; long schedules that a number makes; and the lines that a run
//! prints, as data.
#![tactic(auto)]

mod arguments;
mod catalog_text;
mod draws;
mod fault;
mod fields;
mod generator;
mod keyword;
mod line;
mod lines;
mod live;
mod live_said;
mod made_lines;
mod program;
mod read;
mod reader;
mod said;
mod same;
mod schedule;
mod script;
mod words;

pub use catalog_text::CatalogText;
pub use generator::make;
pub use keyword::look_up;
pub use line::{Line, MessageKind};
pub use lines::{
    MAX_SCHEDULE, SignificantLine, first_line, is_significant, line_after, without_return,
};
pub use live::{Client, LiveScript, Request, Wish};
pub use read::{read_live, read_schedule};
pub use reader::Reader;
pub use schedule::{Event, LineCause, Schedule, ScriptError};
