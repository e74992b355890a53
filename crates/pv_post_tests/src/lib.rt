//! The tests of pv_post.
#![tactic(auto)]

#[cfg(test)]
mod tests;
