//! The tests of pv_script.
#![tactic(auto)]

#[cfg(test)]
mod live_tests;
#[cfg(test)]
mod tests;
