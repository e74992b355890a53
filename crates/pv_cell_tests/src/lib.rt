//! The tests of pv_cell.
#![tactic(auto)]

#[cfg(test)]
mod play;
#[cfg(test)]
mod rings;
#[cfg(test)]
mod rows;
#[cfg(test)]
mod stage;
#[cfg(test)]
mod visit_tests;
