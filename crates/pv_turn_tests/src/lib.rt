//! The tests of pv_turn.
#![tactic(auto)]

#[cfg(test)]
mod numbers;
#[cfg(test)]
mod tests;
