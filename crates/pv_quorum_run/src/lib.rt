//! Deciders run by a script, each over a log on a disk of its own: what their run prints, and the promises that it keeps.
#![tactic(auto)]

mod cell;
mod command;
mod events;
mod mail;
mod printing;
mod running;
mod table;

pub use command::read_and_decide;
