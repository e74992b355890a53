//! Four boxes on one thread against a world: what their histories are, put in the order of stamps, prints the same lines there and leaves the same records.
#![tactic(auto)]

#[cfg(test)]
mod drive_tests;
#[cfg(test)]
mod driven;
#[cfg(test)]
mod launched;
#[cfg(test)]
mod merged;
#[cfg(test)]
mod records;
#[cfg(test)]
mod world;
