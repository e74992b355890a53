//! The tests of pv_coord.
#![tactic(auto)]

#[cfg(test)]
mod tests;
