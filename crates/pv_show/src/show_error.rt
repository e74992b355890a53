// Why the disks of a bay aren't shown.
ghost use Rattle.std.specs.Prelude.{◌≡◌, Some};
ghost use Rattle.pv_show.specs.ShowError.{show_error_text};

use pv_base::NoMemory;
use std::error::Error;
use std::fmt;

/// Why the disks of a bay aren't shown.
#[derive(Clone, Copy, Debug, PartialEq, Eq)]
pub enum ShowError {
    /// The bay failed to hand one out, and counted that.
    BayFault,
    /// There was no memory.
    NoMemory,
}

impl fmt::Display for ShowError {
    ghost output = { λ e. Some (show_error_text e) };

    fn fmt<W: fmt::Write>(&self, f: &mut fmt::Formatter<W>) -> fmt::Result {
        f.write_str(match self {
            ShowError::BayFault => "the bay failed",
            ShowError::NoMemory => "no memory",
        })
    }
}

impl Error for ShowError {}

impl From<NoMemory> for ShowError {
    ghost use Rattle.pv_show.specs.declared.show_error.ShowError.TheVariants as error;

    ghost from_gives = { λ _ e. e ≡ error.NoMemory };

    fn from(_: NoMemory) -> Self {
        ShowError::NoMemory
    }
}
