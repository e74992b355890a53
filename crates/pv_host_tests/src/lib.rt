//! The tests of pv_host.
#![tactic(auto)]

#[cfg(test)]
mod tests;
