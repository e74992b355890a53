// What the values of items by records come from and depend on.
ghost use Rattle.std.specs.Prelude.{◌≡◌, ◌++◌, ◌∷◌, [], ℕ, ℤ, Bool, List, All};
ghost use Rattle.pv_base.specs.Assignment.{commits};
ghost use Rattle.pv_base.specs.Catalog.{Declared};
ghost use Rattle.pv_base.specs.Polyvalue.{Case, DependsOnlyOn};
ghost use Rattle.pv_base.specs.declared.txn.TxnId.{TxnId};
ghost use Rattle.pv_format.specs.Record.{Record, outcome_known};
ghost use Rattle.pv_law_values.specs.Fixed.{AreFixedBy, IsFixedBy, IsRecordFixedBy};
ghost use Rattle.pv_law_values.specs.Heeds.{Heeds};
ghost use Rattle.pv_law_values.specs.Newest.{ComesFrom};
ghost use Rattle.pv_model.specs.Alternatives.{number_at};
ghost use Rattle.pv_protocol.specs.Coordinate.{new_value, reads_of, reply_after, reply_value, row_after};
ghost use Rattle.pv_protocol.specs.Shown.{declared_value, item_value, shown, value_after};
ghost use Rattle.pv_protocol.specs.State.{Entry};

/// Where an assignment heeds the records, an item has its declared value, if no record writes it for a transaction that commits, and
/// else what the last one of these writes.
pub fn comes_from_newest_write()
    ensures { (catalog : Declared) (records : List Record) (item : ℕ) (assignment : List TxnId) → Heeds records assignment →
        ComesFrom item assignment (declared_value catalog item) records (item_value catalog records item assignment) }
{}

/// One more record: the item has what it writes, if it writes the item for a transaction that commits, and else its old value.
pub fn one_more_record()
    ensures { (catalog : Declared) (records : List Record) (more : Record) (item : ℕ) (assignment : List TxnId) → Heeds (records ++ more ∷ []) assignment →
        item_value catalog (records ++ more ∷ []) item assignment ≡ value_after item assignment (item_value catalog records item assignment) more }
{}

/// Settling loses nothing: where an outcome is recorded, each item has the same value as before at each assignment that heeds the
/// records with it.
pub fn settling_loses_nothing()
    ensures { (catalog : Declared) (records : List Record) (txn : TxnId) (outcome : Bool) (item : ℕ) (assignment : List TxnId) →
        Heeds (records ++ outcome_known txn outcome ∷ []) assignment →
        item_value catalog (records ++ outcome_known txn outcome ∷ []) item assignment ≡ item_value catalog records item assignment }
{}

/// Values depend on nothing of an assignment but which transactions commit.
pub fn outcomes_are_all_that_counts()
    ensures value { (cases : List (Case ℤ)) (assignment other : List TxnId) → ((txn : TxnId) → commits assignment txn ≡ commits other txn) →
        number_at cases assignment ≡ number_at cases other }
    ensures item { (catalog : Declared) (records : List Record) (item : ℕ) (assignment other : List TxnId) →
        ((txn : TxnId) → commits assignment txn ≡ commits other txn) → item_value catalog records item assignment ≡ item_value catalog records item other }
    ensures row { (records : List Record) (entry : Entry) (item : ℕ) (assignment other : List TxnId) →
        ((txn : TxnId) → commits assignment txn ≡ commits other txn) → row_after records entry item assignment ≡ row_after records entry item other }
    ensures reply { (records : List Record) (entry : Entry) (assignment other : List TxnId) →
        ((txn : TxnId) → commits assignment txn ≡ commits other txn) → reply_after records entry assignment ≡ reply_after records entry other }
{}

/// Where the transactions of the prepared records are of a set, and what they write depends on it alone, so does each item's value.
pub fn items_are_fixed()
    ensures { (set : TxnId → Bool) (catalog : Declared) (records : List Record) (item : ℕ) → All (IsRecordFixedBy set) records →
        IsFixedBy set (item_value catalog records item) }
{}

/// And so does each shown value.
pub fn shown_are_fixed()
    ensures { (set : TxnId → Bool) (catalog : Declared) (records : List Record) (item : ℕ) → All (IsRecordFixedBy set) records →
        DependsOnlyOn set (shown catalog records item) }
{}

/// Where what a transaction has read depends on a set alone, so does each new value that is computed from it.
pub fn new_values_are_fixed()
    ensures { (set : TxnId → Bool) (records : List Record) (entry : Entry) (item : ℕ) → AreFixedBy set (reads_of entry) →
        DependsOnlyOn set (new_value records entry item) }
{}

/// And so does the reply.
pub fn replies_are_fixed()
    ensures { (set : TxnId → Bool) (records : List Record) (entry : Entry) → AreFixedBy set (reads_of entry) → DependsOnlyOn set (reply_value records entry) }
{}
