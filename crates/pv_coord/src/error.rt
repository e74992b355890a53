// Why a transaction can't begin.
ghost use Rattle.std.specs.Prelude.{◌≡◌};

use pv_base::NoMemory;
use std::alloc::AllocError;
use thiserror::Error;

/// Why a transaction can't begin.
#[derive(Clone, Copy, Debug, PartialEq, Eq, Error)]
pub enum CoordError {
    /// The site has given all its transaction numbers of this epoch.
    #[error("no transaction number is left")]
    Spent,
    /// There was no memory for its entry.
    #[error("no memory")]
    NoMemory,
}

impl From<NoMemory> for CoordError {
    ghost use Rattle.pv_coord.specs.declared.error.CoordError.TheVariants as error;

    ghost from_gives = { λ _ e. e ≡ error.NoMemory };

    fn from(_: NoMemory) -> Self {
        CoordError::NoMemory
    }
}

impl From<AllocError> for CoordError {
    ghost use Rattle.pv_coord.specs.declared.error.CoordError.TheVariants as error;

    ghost from_gives = { λ _ e. e ≡ error.NoMemory };

    fn from(_: AllocError) -> Self {
        CoordError::NoMemory
    }
}
