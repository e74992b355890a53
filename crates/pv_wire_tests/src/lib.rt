//! The tests of pv_wire.
#![tactic(auto)]

#[cfg(test)]
mod tests;
