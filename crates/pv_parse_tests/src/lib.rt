//! The tests of pv_parse.
#![tactic(auto)]

#[cfg(test)]
mod refusal_tests;
#[cfg(test)]
mod tests;
