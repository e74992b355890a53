//! The records of a site's journal as bytes, and the polyvalues in them, each with one spelling; records are read by their old spellings too.
#![tactic(auto)]

mod cases;
mod choice;
mod error;
mod fields;
mod form;
mod length;
mod made;
mod order;
mod past;
mod poly;
mod reads;
mod record;
mod room;

pub use error::{PolyError, ReplayError};
pub use fields::{put_truth, put_txn, take_count, take_item, take_site, take_truth, take_txn};
pub use form::Form;
pub use length::reads_length;
pub use past::{Past, replay, respelled};
pub use poly::{put_poly, take_poly};
pub use pv_tree::Read;
pub use reads::{are_sure, put_reads, take_reads};
pub use record::{Record, encode_record};
