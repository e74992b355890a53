//! The tests of pv_query.
#![tactic(auto)]

#[cfg(test)]
mod tests;
