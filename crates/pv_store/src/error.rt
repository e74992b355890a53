// Why records aren't taken.
ghost use Rattle.std.specs.Prelude.{◌≡◌};

use pv_base::{NameError, NoMemory};
use std::alloc::{AllocError, AllocFailed};
use thiserror::Error;

/// Why a store doesn't take records.
#[derive(Clone, Copy, Debug, PartialEq, Eq, Error)]
pub enum StoreError {
    /// The value of an item would name this many outcomes, more than [`HELD_NAMES`](pv_base::HELD_NAMES).
    #[error("a value would name {0} outcomes")]
    TooManyOutcomes(u32),
    /// There was no memory.
    #[error("no memory")]
    NoMemory,
}

impl From<NoMemory> for StoreError {
    ghost use Rattle.pv_store.specs.declared.error.StoreError.TheVariants as error;

    ghost from_gives = { λ _ e. e ≡ error.NoMemory };

    fn from(_: NoMemory) -> Self {
        StoreError::NoMemory
    }
}

impl From<AllocError> for StoreError {
    ghost use Rattle.pv_store.specs.declared.error.StoreError.TheVariants as error;

    ghost from_gives = { λ _ e. e ≡ error.NoMemory };

    fn from(_: AllocError) -> Self {
        StoreError::NoMemory
    }
}

impl<T: Drop> From<AllocFailed<T>> for StoreError {
    ghost use Rattle.pv_store.specs.declared.error.StoreError.TheVariants as error;

    ghost from_gives = { λ _ e. e ≡ error.NoMemory };

    fn from(_: AllocFailed<T>) -> Self {
        StoreError::NoMemory
    }
}
