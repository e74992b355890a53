// Why a text isn't read as a program.
ghost use Rattle.std.specs.Prelude.{◌≡◌};

use pv_base::NoMemory;
use std::alloc::{AllocError, AllocFailed};
use thiserror::Error;

/// Why a text isn't read as a program. Columns count the bytes of the text, from 1.
#[derive(Clone, Copy, Debug, PartialEq, Eq, Error)]
pub enum ParseError {
    /// The text has this many bytes, more than [`MAX_LINE`](pv_base::MAX_LINE).
    #[error("too large: {0} bytes")]
    TooLarge(u64),
    /// The token at this column can't follow what stands before it, or is a number above 9223372036854775807. Where the
    /// text ends too early, this is the column after it.
    #[error("malformed at column {0}")]
    Malformed(u32),
    /// The name at this column is no item's.
    #[error("unknown name at column {0}")]
    UnknownName(u32),
    /// The token at this column is nested deeper than [`MAX_DEPTH`](pv_base::MAX_DEPTH).
    #[error("too deep at column {0}")]
    TooDeep(u32),
    /// There was no memory for the program.
    #[error("no memory")]
    NoMemory,
}

impl From<NoMemory> for ParseError {
    ghost use Rattle.pv_parse.specs.declared.error.ParseError.TheVariants as error;

    ghost from_gives = { λ _ e. e ≡ error.NoMemory };

    fn from(_: NoMemory) -> Self {
        ParseError::NoMemory
    }
}

impl From<AllocError> for ParseError {
    ghost use Rattle.pv_parse.specs.declared.error.ParseError.TheVariants as error;

    ghost from_gives = { λ _ e. e ≡ error.NoMemory };

    fn from(_: AllocError) -> Self {
        ParseError::NoMemory
    }
}

impl<T: Drop> From<AllocFailed<T>> for ParseError {
    ghost use Rattle.pv_parse.specs.declared.error.ParseError.TheVariants as error;

    ghost from_gives = { λ _ e. e ≡ error.NoMemory };

    fn from(_: AllocFailed<T>) -> Self {
        ParseError::NoMemory
    }
}
