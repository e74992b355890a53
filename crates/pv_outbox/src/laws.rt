// What the calls of an outbox make of the records that it stands for. The functions do nothing: each states a law.
ghost use Rattle.std.specs.Prelude.{◌≡◌, ◌≢◌, ◌⊎◌, ℕ, ℤ, Bool, List, Option, Result, Ok, Some, None, [], ◌∷◌, ◌++◌};
ghost use Rattle.std.specs.List.{AllPairs};
ghost use Rattle.pv_base.specs.Polyvalue.{Case};
ghost use Rattle.pv_base.specs.declared.txn.TxnId.{TxnId};
ghost use Rattle.pv_disk_model.specs.Size.{Contents};
ghost use Rattle.pv_law_outbox.specs.Ready.{IsNext, NoneReady};
ghost use Rattle.pv_law_outbox.specs.Runs.{Event, IsWritten, MayWrite, Run};
ghost use Rattle.pv_law_outbox.specs.State.{Record, condition_of, outcome_of, state_of};
ghost use Rattle.pv_outbox.specs.Calls.{Breaks, Stays, Takes, Writes};
ghost use Rattle.pv_outbox.specs.Life.{Act, AreEvents, IsAt, IsStoppedTake, IsTakenOrNot, Life, Place, answered, answers, closed, hold, learn, take};
ghost use Rattle.pv_outbox.specs.OutboxState.{OutboxState, StandsFor};
ghost use Rattle.pv_outbox.specs.Spelling.{SpellRecords, SpellsRecord};
ghost use Rattle.pv_outbox.specs.declared.error.BoxError.{BoxError};

use pv_disk::Log;

/// An outbox that stands for some records stands for these with one more when a call has written one, and for the same ones after a call for
/// which there was no memory. So the calls of an outbox, one after another, are a run of the law on withheld outputs.
pub fn records_follow_calls<L: Log>()
    ensures written { (old new : OutboxState L) (entries : List Record) (contents : Contents) (entry : Record) →
        StandsFor L.model old entries contents → MayWrite old.state entry → Writes L.model old new entry →
        (bytes : List ℕ) × SpellsRecord entry bytes × StandsFor L.model new (entries ++ entry ∷ []) (contents ++ bytes ∷ []) × IsWritten entries entry (entries ++ entry ∷ []) }
    ensures stays { (old new : OutboxState L) (entries : List Record) (contents : Contents) →
        StandsFor L.model old entries contents → Stays L.model old new → StandsFor L.model new entries contents }
{}

/// Where no output is ready, an outbox that is up answers just that: `None`, and nothing changes. So `None` comes exactly where none is ready.
pub fn none_comes_where_none_is_ready<L: Log>()
    ensures { (old new : OutboxState L) (answer : Result (Option ℕ) BoxError) → NoneReady old.state old.state.held → Takes L.model old new answer →
        (answer ≡ Ok None) × (new ≡ old) }
{}

/// Contents spell the records of one outbox at most, and with a record more they have its bytes more.
pub fn contents_tell_records()
    ensures one { (entries others : List Record) (contents : Contents) → SpellRecords entries contents → SpellRecords others contents → entries ≡ others }
    ensures more { (entries : List Record) (contents : Contents) (entry : Record) (bytes : List ℕ) → SpellRecords entries contents → SpellsRecord entry bytes →
        SpellRecords (entries ++ entry ∷ []) (contents ++ bytes ∷ []) }
{}

/// Where it is known what the log holds, a crash at any moment of a call that writes a record, whether the log fails or not, leaves the contents
/// from before, or these with the record's; and after a call that is answered with `Ok` it leaves the record's.
pub fn a_stop_leaves_the_record_or_not<L: Log>()
    ensures written { (old new : OutboxState L) (contents : Contents) (entry : Record) → L.model.contents old.log ≡ Some contents → Writes L.model old new entry →
        (bytes : List ℕ) × SpellsRecord entry bytes
        × ((left : Option Contents) → L.model.left_since new.log (L.model.moment old.log) left → (left ≡ Some contents) ⊎ (left ≡ Some (contents ++ bytes ∷ [])))
        × ((left : Option Contents) → L.model.may_leave new.log left → left ≡ Some (contents ++ bytes ∷ [])) }
    ensures broken { (old new : OutboxState L) (contents : Contents) (entry : Record) → L.model.contents old.log ≡ Some contents → Breaks L.model old new entry →
        (bytes : List ℕ) × SpellsRecord entry bytes
        × ((left : Option Contents) → L.model.left_since new.log (L.model.moment old.log) left → (left ≡ Some contents) ⊎ (left ≡ Some (contents ++ bytes ∷ []))) }
{}

/// Whatever comes to pass with outboxes, one after another on what one log holds, is a run of the law on withheld outputs, with an event for each
/// act: calls with any answers, stops at any moment of a call, of an opening or between two, and openings on what a stop left. At the end the log's
/// records are those of the run. So the outputs that are answered are distinct, each was the ready one that was held first, and where it was answered that there is none
/// none was ready; a `take` that stopped or failed has its record or not, and where it has, that output is never answered; and what a call held or learnt is said to the end.
pub fn lives_are_runs<L: Log>()
    ensures runs { (contents : Contents) (old : List Record) (acts : List Act) (end : Place L) → SpellRecords old contents → Life L.model (closed (Some contents)) acts end →
        (events : List Event) × (new : List Record) × Run old events new × AreEvents acts events × IsAt L.model end new }
    ensures once { (contents : Contents) (old : List Record) (acts : List Act) (end : Place L) → SpellRecords old contents → Life L.model (closed (Some contents)) acts end →
        AllPairs (λ output later. output ≢ later) (answered acts) }
    ensures released { (contents : Contents) (old : List Record) (before since : List Act) (output : ℕ) (end : Place L) → SpellRecords old contents →
        Life L.model (closed (Some contents)) (before ++ answers (take (Ok (Some output))) ∷ since) end →
        (events : List Event) × (then_ : List Record) × Run old events then_ × AreEvents before events × IsNext (state_of then_) output }
    ensures none { (contents : Contents) (old : List Record) (before since : List Act) (end : Place L) → SpellRecords old contents →
        Life L.model (closed (Some contents)) (before ++ answers (take (Ok None)) ∷ since) end →
        (events : List Event) × (then_ : List Record) × Run old events then_ × AreEvents before events × NoneReady (state_of then_) (state_of then_).held }
    ensures stopped { (contents : Contents) (old : List Record) (before since : List Act) (act : Act) (end : Place L) → SpellRecords old contents → IsStoppedTake act →
        Life L.model (closed (Some contents)) (before ++ act ∷ since) end →
        (events : List Event) × (later : List Event) × (then_ : List Record) × (next : List Record) × (new : List Record) × Run old events then_ × AreEvents before events
        × IsTakenOrNot then_ next before since × Run next later new × AreEvents since later × IsAt L.model end new }
    ensures held { (contents : Contents) (old : List Record) (before since : List Act) (output : ℕ) (when : List (Case ℤ)) (end : Place L) → SpellRecords old contents →
        Life L.model (closed (Some contents)) (before ++ answers (hold output when (Ok tt)) ∷ since) end →
        (new : List Record) × IsAt L.model end new × (condition_of (state_of new) output ≡ Some when) }
    ensures learnt { (contents : Contents) (old : List Record) (before since : List Act) (txn : TxnId) (commits : Bool) (end : Place L) → SpellRecords old contents →
        Life L.model (closed (Some contents)) (before ++ answers (learn txn commits (Ok tt)) ∷ since) end →
        (new : List Record) × IsAt L.model end new × (outcome_of (state_of new) txn ≡ Some commits) }
{}
