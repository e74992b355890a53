//! The tests of pv_disk.
#![tactic(auto)]

#[cfg(test)]
mod tests;
