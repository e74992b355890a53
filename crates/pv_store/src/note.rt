// What a record says of its own transaction.
ghost use Rattle.std.specs.Prelude.{◌≡◌, ◌≤◌, ◌+◌, ◌++◌, ◌∷◌, [], ℕ, List, None, true, ◌&&◌, is_none};
ghost use Rattle.pv_base.specs.declared.txn.TxnId.{TxnId};
ghost use Rattle.pv_format.specs.Record as model;
ghost use Rattle.pv_protocol.specs.Records.{known};
ghost use Rattle.pv_replay.specs.Values.{record_of};
ghost use Rattle.pv_store.specs.Held.{AreKnown, ArePrepared};
ghost use Rattle.pv_store.specs.Kept.{HasRoom, Room, has_place};

use crate::dependents::Dependents;
use crate::outcomes::Outcomes;
use crate::promises::Promises;
use pv_replay::Record;

/// Takes note of the record, for which there has to be room. No value has to name a transaction whose outcome it has.
pub(crate) fn note(
    promises: &mut Promises,
    outcomes: &mut Outcomes,
    dependents: &mut Dependents,
    new: &Record,
)
    requires { let room : Room = record { promises = promises.old.room; outcomes = outcomes.old.room; places = dependents.old.places } in HasRoom room (record_of new.now) }
    ensures prepared { (records : List model.Record) → ArePrepared promises.old.txns records → ArePrepared promises.new.txns (records ++ record_of new.now ∷ []) }
    ensures known { (records : List model.Record) → AreKnown outcomes.old.outcomes records → AreKnown outcomes.new.outcomes (records ++ record_of new.now ∷ []) }
    ensures promises_room { promises.old.room ≤ promises.new.room + 1 }
    ensures outcomes_room { outcomes.old.room ≤ outcomes.new.room + 1 }
    ensures placed { (txn : TxnId) (item : ℕ) → known (record_of new.now ∷ []) txn ≡ None → has_place dependents.old.places txn item ≡ true →
        has_place dependents.new.places txn item ≡ true }
    ensures touched { (txn : TxnId) (item : ℕ) → has_place dependents.new.touched txn item ≡ (is_none (known (record_of new.now ∷ []) txn) && has_place dependents.old.touched txn item) }
{
    match new {
        Record::Epoch(_) => {}
        Record::Prepared { txn, .. } => promises.add(*txn),
        Record::Outcome { txn, commits } => {
            outcomes.add(*txn, *commits);
            dependents.remove(*txn);
        }
    }
}
