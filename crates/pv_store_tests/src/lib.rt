//! The tests of pv_store.
#![tactic(auto)]

#[cfg(test)]
mod tests;
