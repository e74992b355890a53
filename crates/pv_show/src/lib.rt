//! What the disks of a bay hold: the records of each site's log, and the items as they show them.
#![tactic(auto)]

mod items;
mod look;
mod pieces;
mod show_error;
mod site;
mod sites;

pub use pieces::{line_of_word, line_with_number};
pub use show_error::ShowError;
pub use sites::show;
