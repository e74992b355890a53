//! The tests of pv_quorum.
#![tactic(auto)]

#[cfg(test)]
mod tests;
