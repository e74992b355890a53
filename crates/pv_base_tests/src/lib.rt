//! The tests of pv_base.
#![tactic(auto)]

#[cfg(test)]
mod tests;
