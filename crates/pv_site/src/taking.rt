// What a site that is up makes of an input.
ghost use Rattle.std.specs.Prelude.{◌≡◌, All, IfOk};
ghost use Rattle.pv_format.specs.Contents.{greatest_epoch};
ghost use Rattle.pv_format.specs.Range.{IsEnvelopeInRange};
ghost use Rattle.pv_protocol.specs.Step.{on_message, step_on};
ghost use Rattle.pv_site.specs.Given.{IsGivenFor, input_in};
ghost use Rattle.pv_site.specs.Inputs.{IsSpelledFrom};
ghost use Rattle.pv_site.specs.OnLog.{AreReady, StepsOnLog};
ghost use Rattle.pv_site.specs.SiteParts.{here_of, AreSound};
ghost use Rattle.pv_wire.specs.Values.{message_of};

use crate::committing::take_yes;
use crate::deciding::take_prepare;
use crate::learning::take_outcome;
use crate::parts::SiteParts;
use crate::{Given, Message, Step, StepError};
use pv_base::SiteId;
use pv_disk::Log;
use pv_law_step::{
    appends_what_it_may, few_inputs_append, numbers_rise, sends_are_spelled, steps_stay_sound,
};
use std::alloc::Global;

// The step of the site on the input. Its parts stay sound, and what it sends has spellings.
pub(crate) fn take<L: Log>(
    log: &mut L,
    parts: &mut SiteParts,
    alloc: Global,
    input: Given<'_>,
) -> Result<Step, StepError>
    requires ready { AreReady L.model log.old parts.old }
    requires input { IsGivenFor parts.old.me.0 parts.old.catalog input }
    ensures step { StepsOnLog L.model log.old log.new parts.old parts.new (step_on (here_of parts.old) (input_in input.entry)) result }
    ensures intact { L.model.is_intact log.new }
    ensures sound { AreSound parts.new }
    ensures epoch { parts.new.locks.epoch ≡ parts.old.locks.epoch }
    ensures recorded { greatest_epoch parts.new.store.records ≡ greatest_epoch parts.old.store.records }
    ensures spelled { IfOk result (λ step. All (IsSpelledFrom parts.old.me.0) step.sends.items) }
{
    steps_stay_sound();
    sends_are_spelled();
    numbers_rise();
    appends_what_it_may();
    step_on(log, parts, alloc, input)
}

// The step of the site on the input.
fn step_on<L: Log>(
    log: &mut L,
    parts: &mut SiteParts,
    alloc: Global,
    input: Given<'_>,
) -> Result<Step, StepError>
    requires ready { AreReady L.model log.old parts.old }
    requires input { IsGivenFor parts.old.me.0 parts.old.catalog input }
    ensures step { StepsOnLog L.model log.old log.new parts.old parts.new (step_on (here_of parts.old) (input_in input.entry)) result }
    ensures intact { L.model.is_intact log.new }
{
    few_inputs_append();
    match input {
        Given::Submit { program, plan } => Ok(parts.on_submit(alloc, program, plan)?),
        Given::Take { from, message } => take_message(log, parts, alloc, from, message),
        Given::Tick => Ok(parts.on_tick(alloc)?),
    }
}

// The step of the site on the message.
fn take_message<L: Log>(
    log: &mut L,
    parts: &mut SiteParts,
    alloc: Global,
    from: SiteId,
    message: &Message,
) -> Result<Step, StepError>
    requires ready { AreReady L.model log.old parts.old }
    requires range { IsEnvelopeInRange (record { from = from.0; to = parts.old.me.0; message = message_of message.now }) }
    ensures step { StepsOnLog L.model log.old log.new parts.old parts.new (on_message (here_of parts.old) from.0 (message_of message.now)) result }
    ensures intact { L.model.is_intact log.new }
{
    few_inputs_append();
    match message {
        Message::Lock { txn, wants } => Ok(parts.on_lock(alloc, from, *txn, wants)?),
        Message::Granted { txn, grant, values } => {
            Ok(parts.on_granted(alloc, from, *txn, *grant, values)?)
        }
        Message::Denied { txn, item, holder } => {
            Ok(parts.on_denied(alloc, from, *txn, *item, *holder)?)
        }
        Message::Prepare { txn, grant, writes } => {
            take_prepare(log, parts, alloc, from, *txn, *grant, writes)
        }
        Message::Yes { txn } => take_yes(log, parts, alloc, from, *txn),
        Message::No { txn, cause } => Ok(parts.on_no(alloc, from, *txn, *cause)?),
        Message::Outcome { txn, commits } => {
            take_outcome(log, parts, alloc, from, *txn, *commits)
        }
        Message::Ask { txn } => Ok(parts.on_ask(alloc, from, *txn)?),
    }
}
