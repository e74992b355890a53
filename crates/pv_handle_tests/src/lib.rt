//! Tests of pv_handle.
#![tactic(auto)]

#[cfg(test)]
mod tests;
