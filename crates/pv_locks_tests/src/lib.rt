//! The tests of pv_locks.
#![tactic(auto)]

#[cfg(test)]
mod tests;
