//! The tests of pv_bytes.
#![tactic(auto)]

#[cfg(test)]
mod tests;
