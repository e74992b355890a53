// A program over polyvalues is computed for each alternative of what it reads, and what comes out is joined.
ghost use Rattle.std.specs.Prelude.{◌<◌, [], IsTrue};
ghost use Rattle.std.specs.List.{AllPairs};
ghost use Rattle.pv_base.specs.Answer.{Answers};
ghost use Rattle.pv_base.specs.declared.limits.TheConstants.{READ_NAMES};
ghost use Rattle.pv_cases.specs.NameLimits.{NameTooMany};
ghost use Rattle.pv_model.specs.Alternatives.{all_cases, rows_at};
ghost use Rattle.pv_model.specs.Items.{has_all_items};
ghost use Rattle.pv_split.specs.Splitting.{count_of, IsJoinedSplit};

use crate::effects::effects_of;
use crate::outcomes::outcomes_of;
use crate::sure::{are_sure, split_sure};
use crate::writes::{reply_over, writes_of};
use pv_ast::{Program, Reply};
use pv_base::{NoMemory, READ_NAMES};
use pv_tree::{Poly, Read};
use std::alloc::Global;
use thiserror::Error;

/// What a program writes and replies, for every assignment of the outcomes that its reads name.
#[derive(Debug, Drop)]
pub struct Joined {
    /// The new values of the items that some assignment of the program names, in the order of the reads.
    pub writes: Vec<Read>,
    /// The reply.
    pub reply: Poly<Reply>,
}

/// Why a program can't be computed over what it reads.
#[derive(Clone, Copy, Debug, PartialEq, Eq, Error)]
pub enum SplitError {
    /// The reads name this many outcomes together, more than [`READ_NAMES`].
    #[error("the reads name {0} outcomes")]
    OutcomeLimit(u32),
    /// There was no memory, or the reads name 2^32 outcomes or more.
    #[error("no memory")]
    NoMemory,
}

impl From<NoMemory> for SplitError {
    ghost use Rattle.std.specs.Prelude.{◌≡◌};
    ghost use Rattle.pv_split.specs.declared.joining.SplitError.TheVariants as error;

    ghost from_gives = { λ _ e. e ≡ error.NoMemory };

    fn from(_: NoMemory) -> Self {
        SplitError::NoMemory
    }
}

/// Computes the program once for each alternative of what it reads, which is each assignment of the outcomes that the reads name
/// together, and joins what comes out (Montgomery, 1979). The reads ascend by item, and have each item of the program.
///
/// `OutcomeLimit` has the number of outcomes that the reads name together, where these are more than [`READ_NAMES`]. Takes time in proportion to the
/// alternatives, times the cost of the program and the number of reads; for each item that is written, to the alternatives, times the
/// outcomes; to the literals of the reads; and to the tests of their decision trees, times the logarithm of the tests' number.
pub fn split(alloc: Global, program: &Program, reads: &[Read]) -> Result<Joined, SplitError>
    requires ascending { AllPairs (λ read later. read.item < later.item) reads.now }
    requires items { IsTrue (has_all_items (rows_at reads.now []) program.now) }
    ensures answer { Answers (IsJoinedSplit READ_NAMES program.now reads.now) (NameTooMany READ_NAMES (all_cases reads.now)) (λ joined. (joined.writes.items, joined.reply)) count_of result }
{
    if are_sure(reads) {
        return Ok(split_sure(alloc, program, reads)?);
    }
    split_named(alloc, program, reads)
}

// The same, alternative by alternative.
fn split_named(alloc: Global, program: &Program, reads: &[Read]) -> Result<Joined, SplitError>
    requires ascending { AllPairs (λ read later. read.item < later.item) reads.now }
    requires items { IsTrue (has_all_items (rows_at reads.now []) program.now) }
    ensures answer { Answers (IsJoinedSplit READ_NAMES program.now reads.now) (NameTooMany READ_NAMES (all_cases reads.now)) (λ joined. (joined.writes.items, joined.reply)) count_of result }
{
    let txns = outcomes_of(alloc, reads)?;
    let effects = effects_of(alloc, program, reads, &txns)?;
    let writes = writes_of(alloc, program, reads, &txns, &effects)?;
    let reply = reply_over(alloc, &txns, &effects)?;
    Ok(Joined { writes, reply })
}
