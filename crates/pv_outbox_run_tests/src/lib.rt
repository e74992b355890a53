//! The tests of pv_outbox_run.
#![tactic(auto)]

#[cfg(test)]
mod tests;
