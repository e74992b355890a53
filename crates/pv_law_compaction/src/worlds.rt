// What is read in a world whose sites keep fewer records.
ghost use Rattle.std.specs.Prelude.{◌≡◌, ℕ, Contains, IsTrue, List};
ghost use Rattle.pv_base.specs.declared.txn.TxnId.{TxnId};
ghost use Rattle.pv_law_acts.specs.Seen.{records_at};
ghost use Rattle.pv_law_compaction.specs.Given.{is_given};
ghost use Rattle.pv_law_compaction.specs.Worlds.{given_part, HasGivenOrder, IsKeptOf};
ghost use Rattle.pv_law_outcomes.specs.Decided.{AreDecided};
ghost use Rattle.pv_protocol.specs.Agreement.{Agrees};
ghost use Rattle.pv_protocol.specs.Committed.{Fits, is_committed, is_open};
ghost use Rattle.pv_protocol.specs.Lock.{is_home};
ghost use Rattle.pv_protocol.specs.Shown.{item_value};
ghost use Rattle.pv_protocol.specs.State.{Placed, Setup};
ghost use Rattle.pv_protocol.specs.World.{World};

/// Where each site keeps records that stand for all of its own, the same transactions are committed, and the same are open. What fits with what is
/// kept fits with all, but for transactions that only save values; and at what fits each item has the same value.
pub fn kept_worlds_read_the_same()
    ensures committed { (setup : Setup) (kept all : World) → AreDecided all → HasGivenOrder all →
        IsKeptOf setup kept all → (txn : TxnId) → IsTrue (is_given txn) → is_committed kept txn ≡ is_committed all txn }
    ensures still_open { (setup : Setup) (kept all : World) → AreDecided all → HasGivenOrder all →
        IsKeptOf setup kept all → (placed : Placed) → Contains all.order placed → is_open kept placed ≡ is_open all placed }
    ensures fits { (setup : Setup) (kept all : World) → AreDecided all → HasGivenOrder all →
        IsKeptOf setup kept all → (assignment : List TxnId) → Fits kept assignment → Fits all (given_part assignment) }
    ensures values { (setup : Setup) (kept all : World) → AreDecided all → HasGivenOrder all →
        IsKeptOf setup kept all → (assignment : List TxnId) → Fits all assignment → (n item : ℕ) → IsTrue (is_home setup.catalog n item) →
        item_value setup.catalog (records_at kept n) item assignment ≡ item_value setup.catalog (records_at all n) item assignment }
{}

/// So it agrees with the serial run where the world with all records does.
pub fn kept_worlds_agree_too()
    ensures { (setup : Setup) (kept all : World) → AreDecided all → HasGivenOrder all →
        IsKeptOf setup kept all → Agrees setup all → Agrees setup kept }
{}
