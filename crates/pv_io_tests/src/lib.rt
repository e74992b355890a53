//! The tests of pv_io.
#![tactic(auto)]

#[cfg(test)]
mod tests;
