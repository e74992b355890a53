//! The tests of pv_growth.
#![tactic(auto)]

#[cfg(test)]
mod tests;
