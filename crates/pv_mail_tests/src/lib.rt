//! The tests of pv_mail.
#![tactic(auto)]

#[cfg(test)]
mod tests;
