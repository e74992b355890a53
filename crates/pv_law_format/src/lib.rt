//! Laws on the definitions of `pv_format`: messages, records and polyvalues have at most one spelling each, and records at most one old one;
//! bytes are read as one value at most, and none that are read are the beginning of others. The functions here do nothing: each states a law.
#![tactic(auto)]

mod envelopes;
mod polyvalues;
mod records;

pub use envelopes::{
    envelope_length, no_longer_envelope, one_envelope, one_envelope_answer, one_envelope_spelling,
    some_envelope_spelling,
};
pub use polyvalues::{
    one_polyvalue, one_polyvalue_answer, one_polyvalue_spelling, polyvalue_length,
    some_polyvalue_spelling,
};
pub use records::{
    no_longer_record, no_spelling_is_old, old_spellings_are_longer, one_old_spelling, one_record,
    one_record_answer, one_record_spelling, one_replay_answer, read_records_are_in_range,
    read_records_are_longer, record_length, some_record_spelling,
};
