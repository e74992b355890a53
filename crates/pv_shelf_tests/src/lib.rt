//! The tests of pv_shelf.
#![tactic(auto)]

#[cfg(test)]
mod tests;
