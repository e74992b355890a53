// What is wrong with a line, and why one isn't read.
ghost use Rattle.std.specs.Prelude.{◌≡◌, Some};
ghost use Rattle.pv_lines.specs.Refusals.{cause_text};

use pv_base::NoMemory;
use std::alloc::{AllocError, AllocFailed};
use std::fmt;

/// What is wrong with a line, in the order in which it is tested. No script has all of these.
#[derive(Clone, Copy, Debug, PartialEq, Eq)]
pub enum Cause {
    /// It has more than [`MAX_LINE`](pv_base::MAX_LINE) bytes, without its end.
    TooLong,
    /// A byte isn't printable ASCII, a space or a tab.
    NotText,
    /// The first line that counts doesn't begin with `deciders`, or there is none.
    DecidersExpected,
    /// The first word isn't one that a line of such a script begins with.
    UnknownWord,
    /// A second `deciders`.
    Twice,
    /// There are too few or too many words.
    WrongCount,
    /// A number isn't one, or isn't in its range; or so it is with a transaction, or with `yes` and `no`.
    BadNumber,
    /// A mode isn't `lost`, `kept` or `torn`.
    BadMode,
    /// The cases are none.
    BadCases,
}

impl fmt::Display for Cause {
    ghost output = { λ cause. Some (cause_text cause) };

    #[tactic(auto, unfolding(crate::specs::Refusals::cause_text))]
    fn fmt<W: fmt::Write>(&self, f: &mut fmt::Formatter<W>) -> fmt::Result {
        match self {
            Cause::TooLong => f.write_str("too long"),
            Cause::NotText => f.write_str("not text"),
            Cause::DecidersExpected => f.write_str("deciders expected"),
            Cause::UnknownWord => f.write_str("unknown word"),
            Cause::Twice => f.write_str("twice"),
            Cause::WrongCount => f.write_str("wrong count"),
            Cause::BadNumber => f.write_str("bad number"),
            Cause::BadMode => f.write_str("bad mode"),
            Cause::BadCases => f.write_str("bad cases"),
        }
    }
}

/// Why a line isn't read.
#[derive(Clone, Copy, Debug, PartialEq, Eq)]
pub enum LineFault {
    /// It is malformed.
    At(Cause),
    /// There was no memory.
    NoMemory,
}

impl From<Cause> for LineFault {
    ghost use Rattle.pv_lines.specs.declared.cause.LineFault.TheVariants as fault;

    ghost from_gives = { λ cause f. f ≡ fault.At cause };

    fn from(cause: Cause) -> Self {
        LineFault::At(cause)
    }
}

impl From<NoMemory> for LineFault {
    ghost use Rattle.pv_lines.specs.declared.cause.LineFault.TheVariants as fault;

    ghost from_gives = { λ _ f. f ≡ fault.NoMemory };

    fn from(_: NoMemory) -> Self {
        LineFault::NoMemory
    }
}

impl From<AllocError> for LineFault {
    ghost use Rattle.pv_lines.specs.declared.cause.LineFault.TheVariants as fault;

    ghost from_gives = { λ _ f. f ≡ fault.NoMemory };

    fn from(_: AllocError) -> Self {
        LineFault::NoMemory
    }
}

impl<T: Drop> From<AllocFailed<T>> for LineFault {
    ghost use Rattle.pv_lines.specs.declared.cause.LineFault.TheVariants as fault;

    ghost from_gives = { λ _ f. f ≡ fault.NoMemory };

    fn from(_: AllocFailed<T>) -> Self {
        LineFault::NoMemory
    }
}
