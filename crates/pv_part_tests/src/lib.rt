//! The tests of pv_part.
#![tactic(auto)]

#[cfg(test)]
mod tests;
