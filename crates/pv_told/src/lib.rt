//! What clients are to hear of what they ask for, by the histories of their sites.
#![tactic(auto)]

mod along;
mod asker;
mod fault;
mod line;
mod lines;
mod standing;
mod told;
mod word;

pub use line::{ClientLine, ClientWhat};
pub use lines::{has_line, lines_of_client};
pub use standing::told_lines_stand_in_histories;
