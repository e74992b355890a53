//! The tests of pv_split.
#![tactic(auto)]

#[cfg(test)]
mod tests;
