//! Lemmas on calls of a disk, for each form of log that lies on one: what those that only read leave and give, and what those of a disk in memory come to where a fault is
//! armed. They stand in `proofs/`.
#![tactic(auto)]
