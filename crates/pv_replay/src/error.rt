// Why bytes aren't read.
ghost use Rattle.std.specs.Prelude.{◌≡◌};

use pv_base::NoMemory;
use pv_bytes::Short;
use std::alloc::{AllocError, AllocFailed};
use thiserror::Error;

/// Why no polyvalue, or another part of a spelling, stands at the front of bytes: the first fault in reading order. Places count from
/// the first of all the bytes.
#[derive(Clone, Copy, Debug, PartialEq, Eq, Error)]
pub enum PolyError {
    /// The bytes end within the field at this place.
    #[error("the bytes end within the field at {0}")]
    Short(usize),
    /// The field at this place is read, and isn't in the range or order that is asked for there.
    #[error("the field at {0} is out of range")]
    BadField(usize),
    /// The polyvalue that begins at this place is read whole. Its count isn't that of its cases, they aren't canonical or name too many outcomes, or it isn't
    /// sure where it has to be.
    #[error("the cases at {0} are no polyvalue")]
    BadPoly(usize),
    /// There was no memory.
    #[error("no memory")]
    NoMemory,
}

/// Why contents aren't the records of a journal.
#[derive(Clone, Copy, Debug, PartialEq, Eq, Error)]
pub enum ReplayError {
    /// The content with this index, from 0, is read as no record, and those before it are read as some.
    #[error("content {0} is no record")]
    BadRecord(u64),
    /// There was no memory.
    #[error("no memory")]
    NoMemory,
}

impl From<Short> for PolyError {
    ghost use Rattle.pv_replay.specs.declared.error.PolyError.TheVariants as error;

    ghost from_gives = { λ short e. e ≡ error.Short short.0 };

    fn from(short: Short) -> Self {
        PolyError::Short(short.0)
    }
}

impl From<NoMemory> for PolyError {
    ghost use Rattle.pv_replay.specs.declared.error.PolyError.TheVariants as error;

    ghost from_gives = { λ _ e. e ≡ error.NoMemory };

    fn from(_: NoMemory) -> Self {
        PolyError::NoMemory
    }
}

impl<T: Drop> From<AllocFailed<T>> for PolyError {
    ghost use Rattle.pv_replay.specs.declared.error.PolyError.TheVariants as error;

    ghost from_gives = { λ _ e. e ≡ error.NoMemory };

    fn from(_: AllocFailed<T>) -> Self {
        PolyError::NoMemory
    }
}

impl From<NoMemory> for ReplayError {
    ghost use Rattle.pv_replay.specs.declared.error.ReplayError.TheVariants as error;

    ghost from_gives = { λ _ e. e ≡ error.NoMemory };

    fn from(_: NoMemory) -> Self {
        ReplayError::NoMemory
    }
}

impl<T: Drop> From<AllocFailed<T>> for ReplayError {
    ghost use Rattle.pv_replay.specs.declared.error.ReplayError.TheVariants as error;

    ghost from_gives = { λ _ e. e ≡ error.NoMemory };

    fn from(_: AllocFailed<T>) -> Self {
        ReplayError::NoMemory
    }
}
