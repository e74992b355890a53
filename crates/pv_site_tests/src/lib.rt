//! The tests of pv_site.
#![tactic(auto)]

#[cfg(test)]
mod play_tests;
#[cfg(test)]
mod step_tests;
#[cfg(test)]
mod tests;
