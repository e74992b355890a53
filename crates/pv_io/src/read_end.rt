// Why not all of a source was read.
ghost use Rattle.std.specs.Prelude.{◌≡◌, Some};
ghost use Rattle.pv_io.specs.ReadEnd.{read_end_text};
ghost use Rattle.pv_io.specs.declared.read_end.ReadEnd.TheVariants.{Failed as ReadFailed, NoMemory};

use pv_base::Failed;
use std::alloc::AllocError;
use std::error::Error;
use std::fmt;

/// Why not all of a source was read.
#[derive(Clone, Copy, Debug, PartialEq, Eq)]
pub enum ReadEnd {
    /// A read of the source failed, and the source counted the fault.
    Failed,
    /// More bytes came than the limit allows. The source may have more of them still.
    TooLong,
    /// There was no memory for the bytes, or for the piece that they are read into.
    NoMemory,
}

impl fmt::Display for ReadEnd {
    ghost output = { λ e. Some (read_end_text e) };

    fn fmt<W: fmt::Write>(&self, f: &mut fmt::Formatter<W>) -> fmt::Result {
        f.write_str(match self {
            ReadEnd::Failed => "failed",
            ReadEnd::TooLong => "too long",
            ReadEnd::NoMemory => "no memory",
        })
    }
}

impl Error for ReadEnd {}

impl From<Failed> for ReadEnd {
    ghost from_gives = { λ _ e. e ≡ ReadFailed };

    fn from(_: Failed) -> Self {
        ReadEnd::Failed
    }
}

impl From<AllocError> for ReadEnd {
    ghost from_gives = { λ _ e. e ≡ NoMemory };

    fn from(_: AllocError) -> Self {
        ReadEnd::NoMemory
    }
}
