// Laws of every world that acts lead to.
ghost use Rattle.std.specs.Prelude.{◌≡◌, ◌++◌, ◌∷◌, [], ℕ, Bool, List, Some, Contains, true};
ghost use Rattle.pv_base.specs.Assignment.{commits};
ghost use Rattle.pv_base.specs.declared.txn.TxnId.{TxnId};
ghost use Rattle.pv_format.specs.Record.{Record, outcome_known};
ghost use Rattle.pv_law_acts.specs.Acts.{Acts};
ghost use Rattle.pv_law_acts.specs.Seen.{records_at, WorksAgeless};
ghost use Rattle.pv_law_values.specs.Heeds.{Heeds};
ghost use Rattle.pv_model.specs.Serial.{declared_rows, serial_reply};
ghost use Rattle.pv_protocol.specs.Agreement.{Agrees};
ghost use Rattle.pv_protocol.specs.Committed.{Fits, programs_of};
ghost use Rattle.pv_protocol.specs.Coordinate.{replies_of, reply_after};
ghost use Rattle.pv_protocol.specs.Shown.{item_value};
ghost use Rattle.pv_protocol.specs.State.{Entry, Setup, voting};
ghost use Rattle.pv_protocol.specs.World.{World, opening};

/// Whatever acts lead to a world, it agrees with the serial run: for every assignment that fits, each readable item has the value that
/// the transactions of the order leave it, run one after another.
pub fn reached_worlds_agree()
    ensures { (setup : Setup) (world : World) → Acts setup (opening setup) world → Agrees setup world }
{}

/// Settling loses nothing: where an outcome was recorded at a site, each item has the value that it had before, at each assignment that
/// fits.
pub fn recorded_outcomes_lose_nothing()
    ensures { (setup : Setup) (world : World) → Acts setup (opening setup) world → (n : ℕ) (before : List Record) (txn : TxnId) (outcome : Bool) →
        records_at world n ≡ before ++ outcome_known txn outcome ∷ [] → (assignment : List TxnId) → Fits world assignment → (item : ℕ) →
        item_value setup.catalog (records_at world n) item assignment ≡ item_value setup.catalog before item assignment }
{}

/// What a transaction replies in the serial run, at an assignment that fits then or later, is what its coordinator computes of what it
/// has read, with any records whose outcomes the assignment has; and it is among the replies that it answers.
pub fn replies_are_serial()
    ensures { (setup : Setup) (world later : World) → Acts setup (opening setup) world → Acts setup world later →
        (n : ℕ) (txn : TxnId) (entry : Entry) → WorksAgeless world n txn entry → entry.stage ≡ voting →
        (assignment : List TxnId) → Fits later assignment → commits assignment txn ≡ true → (records : List Record) → Heeds records assignment →
        (serial_reply (declared_rows setup.catalog) (programs_of later.order) assignment txn ≡ Some (reply_after records entry assignment))
        × Contains (replies_of records entry) (reply_after records entry assignment) }
{}
