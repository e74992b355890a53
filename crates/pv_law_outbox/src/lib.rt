//! The law of withheld outputs: an output that is held back under a condition is released at most once, when the condition is certain
//! and true, whatever stops in between. The functions do nothing: each states a law.
#![tactic(auto)]

ghost use Rattle.std.specs.Prelude.{◌≡◌, ◌≢◌, ◌↔◌, ℕ, ℤ, Bool, true, false, List, [], ◌∷◌, ◌++◌, Some, All};
ghost use Rattle.std.specs.List.{AllPairs};
ghost use Rattle.pv_base.specs.Polyvalue.{Case, IsCanonical};
ghost use Rattle.pv_base.specs.declared.txn.TxnId.{TxnId};
ghost use Rattle.pv_law_outbox.specs.Certain.{IsCertain, is_certain};
ghost use Rattle.pv_law_outbox.specs.Examples.{some_txn, if_it_commits, always};
ghost use Rattle.pv_law_outbox.specs.Ready.{IsNext, NoneReady};
ghost use Rattle.pv_law_outbox.specs.Runs.{Event, holds, learns, releases, has_none, breaks, passes, Run, gone, IsKept};
ghost use Rattle.pv_law_outbox.specs.State.{Record, held, learnt, taken, state_of, condition_of, outcome_of, is_taken};

/// An output is gone once it is released, or once its release was written as the process stopped. In a run of calls, stops and openings, in any order, no output is gone
/// twice; and what was gone before a run isn't released in it.
pub fn outputs_are_released_once()
    ensures once { (old : List Record) (events : List Event) (new : List Record) → Run old events new → AllPairs (λ output later. output ≢ later) (gone events) }
    ensures never_again { (old : List Record) (events : List Event) (new : List Record) → Run old events new →
        (output : ℕ) → is_taken (state_of old) output ≡ true → All (λ other. output ≢ other) (gone events) }
{}

/// Where an output is released in a run, it is the ready one that was held first, by the records that there are then; and where it is
/// answered that there is none, none is ready. What was certain then is certain to the end of the run, whatever is learnt.
pub fn only_ready_outputs_are_released()
    ensures released { (old : List Record) (before : List Event) (output : ℕ) (since : List Event) (new : List Record) → Run old (before ++ releases output ∷ since) new →
        (then_ : List Record) × Run old before then_ × IsNext (state_of then_) output }
    ensures none { (old : List Record) (before since : List Event) (new : List Record) → Run old (before ++ has_none ∷ since) new →
        (then_ : List Record) × Run old before then_ × NoneReady (state_of then_) (state_of then_).held }
    ensures certain { (old : List Record) (events : List Event) (new : List Record) → Run old events new →
        (when : List (Case ℤ)) → IsCertain (state_of old).outcomes when → IsCertain (state_of new).outcomes when }
{}

/// What the records say before a run they say after it. So an output that a call held, under its condition, and an outcome that a call learnt, are
/// never lost.
pub fn what_was_written_stays()
    ensures kept { (old : List Record) (events : List Event) (new : List Record) → Run old events new → IsKept (state_of old) (state_of new) }
    ensures held { (old : List Record) (before : List Event) (output : ℕ) (when : List (Case ℤ)) (since : List Event) (new : List Record) →
        Run old (before ++ holds output when ∷ since) new → condition_of (state_of new) output ≡ Some when }
    ensures learnt { (old : List Record) (before : List Event) (txn : TxnId) (commits : Bool) (since : List Event) (new : List Record) →
        Run old (before ++ learns txn commits ∷ since) new → outcome_of (state_of new) txn ≡ Some commits }
{}

/// A canonical condition is certain exactly where each of its cases that may still be met has the value 1.
pub fn certainty_is_computed()
    ensures { (outcomes : List (TxnId × Bool)) (when : List (Case ℤ)) → IsCanonical when → (is_certain outcomes when ≡ true) ↔ IsCertain outcomes when }
{}

/// For example, of two outputs the second is released first, since the first waits for a transaction; when that is learnt to commit the
/// first is released, and then none is ready.
pub fn an_output_waits_for_its_transaction()
    ensures { Run [] (holds 1 if_it_commits ∷ holds 2 always ∷ releases 2 ∷ learns some_txn true ∷ releases 1 ∷ has_none ∷ [])
        (held 1 if_it_commits ∷ held 2 always ∷ taken 2 ∷ learnt some_txn true ∷ taken 1 ∷ []) }
{}

/// For example, where the process stops as a release is written, and an outbox is opened again: if the record is there, the output is
/// gone, and else it is released then.
pub fn a_stopped_release_is_written_or_not()
    ensures written { Run [] (holds 1 always ∷ breaks (taken 1) true ∷ passes ∷ has_none ∷ []) (held 1 always ∷ taken 1 ∷ []) }
    ensures unwritten { Run [] (holds 1 always ∷ breaks (taken 1) false ∷ passes ∷ releases 1 ∷ []) (held 1 always ∷ taken 1 ∷ []) }
{}
