//! The tests of pv_show.
#![tactic(auto)]

#[cfg(test)]
mod tests;
