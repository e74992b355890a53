// Why a line isn't read, whatever its number.
ghost use Rattle.std.specs.Prelude.{◌≡◌};

use crate::schedule::{LineCause, ScriptError};
use pv_base::CatalogError;
use pv_check::CheckError;
use pv_parse::ParseError;
use std::alloc::{AllocError, AllocFailed};

/// Why a line isn't read.
#[derive(Clone, Copy, Debug, PartialEq, Eq)]
pub enum Fault {
    /// It is malformed.
    At(LineCause),
    /// There was no memory.
    NoMemory,
}

impl Fault {
    ghost use Rattle.pv_script.specs.LineFaults.{error_at};

    /// The refusal of the line of this number.
    pub fn at(self, line: u32) -> ScriptError
        ensures { result ≡ error_at line self }
    {
        match self {
            Fault::At(cause) => ScriptError::Malformed { line, cause },
            Fault::NoMemory => ScriptError::NoMemory,
        }
    }
}

impl From<LineCause> for Fault {
    ghost use Rattle.pv_script.specs.declared.fault.Fault.TheVariants as fault;

    ghost from_gives = { λ cause f. f ≡ fault.At cause };

    fn from(cause: LineCause) -> Self {
        Fault::At(cause)
    }
}

impl From<CatalogError> for Fault {
    ghost use Rattle.pv_script.specs.LineFaults.{fault_of_catalog};

    ghost from_gives = { λ error f. f ≡ fault_of_catalog error };

    // The site of an item is tested as a number.
    fn from(error: CatalogError) -> Self {
        match error {
            CatalogError::BadName => Fault::At(LineCause::BadName),
            CatalogError::NameTaken(_) => Fault::At(LineCause::NameTaken),
            CatalogError::NoSite => Fault::At(LineCause::BadNumber),
            CatalogError::TooMany => Fault::At(LineCause::TooManyItems),
            CatalogError::NoMemory => Fault::NoMemory,
        }
    }
}

impl From<ParseError> for Fault {
    ghost use Rattle.pv_script.specs.LineFaults.{fault_of_parse};

    ghost from_gives = { λ error f. f ≡ fault_of_parse error };

    // Only a line that is too long holds a program's text that is too large.
    fn from(error: ParseError) -> Self {
        match error {
            ParseError::TooLarge(_) => Fault::At(LineCause::TooLong),
            ParseError::Malformed(column) => Fault::At(LineCause::ProgramColumn(column)),
            ParseError::UnknownName(column) => Fault::At(LineCause::UnknownName(column)),
            ParseError::TooDeep(column) => Fault::At(LineCause::TooDeep(column)),
            ParseError::NoMemory => Fault::NoMemory,
        }
    }
}

impl From<CheckError> for Fault {
    ghost use Rattle.pv_script.specs.LineFaults.{fault_of_check};

    ghost from_gives = { λ error f. f ≡ fault_of_check error };

    fn from(error: CheckError) -> Self {
        match error {
            CheckError::NoItem => Fault::At(LineCause::NamesNoItem),
            CheckError::TooManyItems(count) => Fault::At(LineCause::TooManyNames(count)),
            CheckError::Assigns => Fault::At(LineCause::QueryAssigns),
            CheckError::NoReturn => Fault::At(LineCause::NoReturn),
            CheckError::NoMemory => Fault::NoMemory,
        }
    }
}

impl From<AllocError> for Fault {
    ghost use Rattle.pv_script.specs.declared.fault.Fault.TheVariants as fault;

    ghost from_gives = { λ _ f. f ≡ fault.NoMemory };

    fn from(_: AllocError) -> Self {
        Fault::NoMemory
    }
}

impl<T: Drop> From<AllocFailed<T>> for Fault {
    ghost use Rattle.pv_script.specs.declared.fault.Fault.TheVariants as fault;

    ghost from_gives = { λ _ f. f ≡ fault.NoMemory };

    fn from(_: AllocFailed<T>) -> Self {
        Fault::NoMemory
    }
}
