//! The tests of pv_links, pv_told and pv_transcript.
#![tactic(auto)]

#[cfg(test)]
mod link_tests;
#[cfg(test)]
mod told_tests;
#[cfg(test)]
mod transcript_tests;
