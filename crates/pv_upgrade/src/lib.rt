//! The disks of a bay upgraded: the old spellings on each are replaced by what is written today, all of them at one moment.
#![tactic(auto)]

mod contents;
mod find;
mod log;
mod site;
mod sites;
mod told;

pub use sites::upgrade;
