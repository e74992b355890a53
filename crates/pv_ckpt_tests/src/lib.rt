//! The tests of pv_ckpt.
#![tactic(auto)]

#[cfg(test)]
mod crash_tests;
