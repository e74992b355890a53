//! The messages between sites as bytes, each with one spelling.
#![tactic(auto)]

mod body;
mod decoding;
mod encoding;
mod error;
mod fields;
mod length;
mod message;
mod wants;

pub use decoding::decode;
pub use encoding::{encode, encode_in};
pub use error::WireError;
pub use message::{Envelope, Message, NoCause};
pub use pv_tree::Read;
