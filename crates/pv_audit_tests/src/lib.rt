//! The tests of pv_audit.
#![tactic(auto)]

#[cfg(test)]
mod tests;
#[cfg(test)]
mod verdicts;
