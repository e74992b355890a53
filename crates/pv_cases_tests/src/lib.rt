//! The tests of pv_cases.
#![tactic(auto)]

#[cfg(test)]
mod tests;
