//! The tests of pv_crew.
#![tactic(auto)]

#[cfg(test)]
mod desk;
#[cfg(test)]
mod tests;
#[cfg(test)]
mod watch;
