//! The tests of pv_merge.
#![tactic(auto)]

#[cfg(test)]
mod served_tests;
#[cfg(test)]
mod tests;
