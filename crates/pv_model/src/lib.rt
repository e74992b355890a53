//! What polydb is to do, as plain data: texts and their lines, schedules, programs and their meaning, the serial run, and
//! the text of a reply. The definitions stand in `specs/`, and laws about them in the crates `pv_law_..`.
#![tactic(auto)]
