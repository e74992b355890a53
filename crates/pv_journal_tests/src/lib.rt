//! The tests of pv_journal.
#![tactic(auto)]

#[cfg(test)]
mod crash_tests;
#[cfg(test)]
mod tests;
