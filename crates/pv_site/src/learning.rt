// An outcome that comes: it is recorded where the site needs it, and ends a grant (two-phase commit: Gray, 1978).
ghost use Rattle.std.specs.Prelude.{◌≡◌};
ghost use Rattle.pv_format.specs.Range.{IsTxnInRange};
ghost use Rattle.pv_part.specs.Cases.{IsOutcomeStep};
ghost use Rattle.pv_part.specs.declared.cases.OutcomeCase.TheVariants as outcome;
ghost use Rattle.pv_protocol.specs.Outcome.{on_outcome};
ghost use Rattle.pv_protocol.specs.State as model;
ghost use Rattle.pv_site.specs.OnLog.{AreReady, StepsOnLog};
ghost use Rattle.pv_site.specs.SiteParts.{here_of};

use crate::answers::{nothing, noting};
use crate::appending::{Written, write};
use crate::parts::SiteParts;
use crate::{Note, Step, StepError};
use pv_base::{SiteId, TxnId};
use pv_disk::Log;
use pv_part::{OutcomeCase, on_outcome};
use std::alloc::Global;

// An outcome comes. What the site doesn't need it doesn't record.
#[tactic(auto, using(crate::proofs::LogLemmas::keeps_itself))]
pub(crate) fn take_outcome<L: Log>(
    log: &mut L,
    parts: &mut SiteParts,
    alloc: Global,
    from: SiteId,
    txn: TxnId,
    commits: bool,
) -> Result<Step, StepError>
    requires ready { AreReady L.model log.old parts.old }
    requires txn { IsTxnInRange txn }
    ensures step { StepsOnLog L.model log.old log.new parts.old parts.new (on_outcome (here_of parts.old) from.0 txn commits) result }
    ensures intact { L.model.is_intact log.new }
{
    let known = parts.store.known(txn).is_some();
    let prepared = parts.store.prepared(txn);
    let named = parts.store.named(txn);
    match on_outcome(txn, from, commits, known, prepared, named) {
        OutcomeCase::Nothing => Ok(nothing(alloc)),
        OutcomeCase::Release => {
            parts.locks.release(txn);
            Ok(nothing(alloc))
        }
        OutcomeCase::Record => learn(log, parts, alloc, txn, commits),
    }
}

// The outcome is recorded, if the journal has room for it.
#[tactic(auto, using(crate::proofs::LogLemmas::keeps_itself))]
fn learn<L: Log>(
    log: &mut L,
    parts: &mut SiteParts,
    alloc: Global,
    txn: TxnId,
    commits: bool,
) -> Result<Step, StepError>
    requires ready { AreReady L.model log.old parts.old }
    requires txn { IsTxnInRange txn }
    ensures step { (step : model.Step) → IsOutcomeStep (here_of parts.old) txn commits outcome.Record step →
        StepsOnLog L.model log.old log.new parts.old parts.new step result }
    ensures intact { L.model.is_intact log.new }
{
    let change = parts.store.plan_settle(txn, commits)?;
    match write(log, alloc, change.record()) {
        Ok(Written::Done) => {
            parts.store.apply(change);
            parts.locks.release(txn);
            Ok(nothing(alloc))
        }
        Ok(Written::Full(length)) => Ok(noting(alloc, Note::Full(length))?),
        Err(error) => Err(error),
    }
}
