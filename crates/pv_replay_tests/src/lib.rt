//! The tests of pv_replay.
#![tactic(auto)]

#[cfg(test)]
mod tests;
