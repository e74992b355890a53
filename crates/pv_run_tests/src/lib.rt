//! The tests of pv_run.
#![tactic(auto)]

#[cfg(test)]
mod tests;
