//! The tests of pv_poly.
#![tactic(auto)]

#[cfg(test)]
mod tests;
