//! The tests of pv_world.
#![tactic(auto)]

#[cfg(test)]
mod report_tests;
