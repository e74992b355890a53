//! The tests of pv_rings.
#![tactic(auto)]

#[cfg(test)]
mod tests;
