// Why a world made no step.
use pv_base::NoMemory;
use std::alloc::{AllocError, AllocFailed};
use thiserror::Error;

/// Why a world made no step. The world is then of no further use.
#[derive(Clone, Copy, Debug, PartialEq, Eq, Error)]
pub enum WorldError {
    /// The encoded bytes of all messages that were ever sent, with the first message that passes the limit.
    #[error("the messages would have {0} bytes")]
    SentLimit(u64),
    /// There was no memory.
    #[error("no memory")]
    NoMemory,
}

impl From<NoMemory> for WorldError {
    ghost use Rattle.std.specs.Prelude.{◌≡◌};
    ghost use Rattle.pv_world.specs.declared.error.WorldError.TheVariants as error;

    ghost from_gives = { λ _ e. e ≡ error.NoMemory };

    fn from(_: NoMemory) -> Self {
        WorldError::NoMemory
    }
}

impl From<AllocError> for WorldError {
    ghost use Rattle.std.specs.Prelude.{◌≡◌};
    ghost use Rattle.pv_world.specs.declared.error.WorldError.TheVariants as error;

    ghost from_gives = { λ _ e. e ≡ error.NoMemory };

    fn from(_: AllocError) -> Self {
        WorldError::NoMemory
    }
}

impl<T: Drop> From<AllocFailed<T>> for WorldError {
    ghost use Rattle.std.specs.Prelude.{◌≡◌};
    ghost use Rattle.pv_world.specs.declared.error.WorldError.TheVariants as error;

    ghost from_gives = { λ _ e. e ≡ error.NoMemory };

    fn from(_: AllocFailed<T>) -> Self {
        WorldError::NoMemory
    }
}
