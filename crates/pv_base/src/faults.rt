// Why cases can't be held as a polyvalue.
use crate::{NoMemory, TxnId};
use thiserror::Error;

/// Why a list of cases isn't a polyvalue. The first cause that holds is reported, in the order in which they stand here; out
/// of memory may come in place of any.
#[derive(Debug, Drop, Error)]
pub enum CaseError {
    /// The cases name this many outcomes, more than [`crate::HELD_NAMES`].
    #[error("the cases name {0} outcomes")]
    TooManyOutcomes(u32),
    /// One assignment meets both of the cases at these places. Of all such pairs this one has the least first place, and
    /// then the least second one.
    #[error("cases {0} and {1} overlap")]
    NotDisjoint(u32, u32),
    /// No case is met where exactly these transactions commit, which are ascending. Of all such assignments of the outcomes
    /// that the cases name, with "doesn't commit" before "commits" and the least transaction the most significant, it is the
    /// first.
    #[error("an assignment meets no case")]
    NotComplete(Vec<TxnId>),
    /// The list isn't in canonical form: this is the first place where it differs from the canonical cases.
    #[error("case {0} isn't canonical")]
    NotReduced(u32),
    /// There was no memory.
    #[error("no memory")]
    NoMemory,
}

/// Why a polyvalue can't be made.
#[derive(Clone, Copy, Debug, PartialEq, Eq, Error)]
pub enum NameError {
    /// It would name this many outcomes, more than [`crate::HELD_NAMES`].
    #[error("the value names {0} outcomes")]
    TooManyOutcomes(u32),
    /// There was no memory.
    #[error("no memory")]
    NoMemory,
}

impl From<NoMemory> for CaseError {
    ghost use Rattle.std.specs.Prelude.{◌≡◌};
    ghost use Rattle.pv_base.specs.declared.faults.CaseError.TheVariants as error;

    ghost from_gives = { λ _ e. e ≡ error.NoMemory };

    fn from(_: NoMemory) -> Self {
        CaseError::NoMemory
    }
}

impl From<NoMemory> for NameError {
    ghost use Rattle.std.specs.Prelude.{◌≡◌};
    ghost use Rattle.pv_base.specs.declared.faults.NameError.TheVariants as error;

    ghost from_gives = { λ _ e. e ≡ error.NoMemory };

    fn from(_: NoMemory) -> Self {
        NameError::NoMemory
    }
}
