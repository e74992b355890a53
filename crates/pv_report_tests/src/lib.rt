//! The tests of pv_report.
#![tactic(auto)]

#[cfg(test)]
mod tests;
