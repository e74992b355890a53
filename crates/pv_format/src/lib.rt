//! Messages between sites and records of journals, as plain data, and which bytes spell each. It holds definitions alone, in
//! `specs/`.
#![tactic(auto)]
