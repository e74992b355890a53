//! What is said of disks and logs, and how the effects of their calls join: definitions and lemmas, for the crates that are one or stand on one.
#![tactic(auto)]
