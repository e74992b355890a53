//! The tests of pv_check.
#![tactic(auto)]

#[cfg(test)]
mod tests;
