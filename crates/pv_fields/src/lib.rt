//! How what is read or written part after part comes to the whole: lemmas for the crates that turn values into bytes and back.
#![tactic(auto)]
