//! The tests of pv_embed_world.
#![tactic(auto)]

#[cfg(test)]
mod tests;
