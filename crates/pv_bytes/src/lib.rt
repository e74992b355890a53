//! Numbers as big-endian bytes, written and read one after another.
#![tactic(auto)]

mod laws;
mod put;
mod short;
mod take;

pub use laws::{
    fitting_complement, one_number, one_signed_number, one_spelling, signed_numbers, some_number,
};
pub use put::Put;
pub use short::Short;
pub use take::Take;
