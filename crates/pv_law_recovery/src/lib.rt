//! Recovery after a crash: from the bytes that it left on a disk to the records that a site goes on from. The functions here do nothing: each
//! states a law.
#![tactic(auto)]

mod recovery;

pub use recovery::crashes_are_recovered;
