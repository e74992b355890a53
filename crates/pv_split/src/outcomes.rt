// The outcomes that reads name together.
ghost use Rattle.std.specs.Prelude.{◌≡◌, ◌<◌, ◌≤◌, length, IfOk, IfErr, IfSome, OnOk};
ghost use Rattle.pv_base.specs.Polyvalue.{AreNames};
ghost use Rattle.pv_base.specs.declared.limits.TheConstants.{READ_NAMES};
ghost use Rattle.pv_cases.specs.NameLimits.{NameTooMany};
ghost use Rattle.pv_model.specs.Alternatives.{all_cases};
ghost use Rattle.pv_split.specs.Splitting.{count_of};

use crate::SplitError;
use pv_base::{NoMemory, READ_NAMES, TxnId};
use pv_cases::{ordered, push_names};
use pv_tree::Read;
use std::alloc::Global;

/// The outcomes that the reads name together, ascending. Takes time in proportion to the literals of the reads, and to the tests of their
/// decision trees, times the logarithm of the tests' number.
pub(crate) fn outcomes_of(alloc: Global, reads: &[Read]) -> Result<Vec<TxnId>, SplitError>
    ensures names { IfOk result (λ txns. AreNames (all_cases reads.now) txns.items) }
    ensures few { IfOk result (λ txns. length txns.items ≤ READ_NAMES) }
    ensures refused { IfErr result (λ e. IfSome (count_of e) (NameTooMany READ_NAMES (all_cases reads.now))) }
{
    limited(named_in(alloc, reads)?)
}

// The same, however many they are.
fn named_in(alloc: Global, reads: &[Read]) -> Result<Vec<TxnId>, NoMemory>
    ensures { IfOk result (λ txns. AreNames (all_cases reads.now) txns.items) }
{
    let mut txns = Vec::new(alloc);
    for read in reads {
        push_names(&mut txns, read.value.cases())?;
    }
    Ok(ordered(txns))
}

// These, unless they are too many. Of 2^32 and more, which take 48 GiB, not even the number can be reported.
fn limited(txns: Vec<TxnId>) -> Result<Vec<TxnId>, SplitError>
    ensures same { IfOk result (λ kept. kept.items ≡ txns.items) }
    ensures few { OnOk result (length txns.items ≤ READ_NAMES) }
    ensures refused { IfErr result (λ e. IfSome (count_of e) (λ count. (length txns.items ≡ count) × (READ_NAMES < count))) }
{
    let Ok(count) = u32::try_from(txns.len()) else {
        return Err(SplitError::NoMemory);
    };
    if count > READ_NAMES {
        return Err(SplitError::OutcomeLimit(count));
    }
    Ok(txns)
}
