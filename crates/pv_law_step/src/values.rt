// What shown values are.
ghost use Rattle.std.specs.Prelude.{◌++◌, ◌∷◌, ◌≡◌, ℕ, Bool, IsTrue, List, Some, [], true};
ghost use Rattle.pv_base.specs.declared.txn.TxnId.{TxnId};
ghost use Rattle.pv_base.specs.Assignment.{with_outcome};
ghost use Rattle.pv_base.specs.Catalog.{Declared};
ghost use Rattle.pv_base.specs.Named.{names_of};
ghost use Rattle.pv_base.specs.Polyvalue.{AreNames, Case, IsCanonical, names, value_at};
ghost use Rattle.pv_format.specs.Record.{Record, epoch_begun, outcome_known, prepared};
ghost use Rattle.pv_model.specs.Alternatives.{Read};
ghost use Rattle.pv_protocol.specs.Coordinate.{new_value, reply_after, reply_value, row_after};
ghost use Rattle.pv_protocol.specs.Records.{choice, is_undecided};
ghost use Rattle.pv_protocol.specs.Shown.{item_value, shown, value_after};
ghost use Rattle.pv_protocol.specs.State.{Entry};

/// The list of names is that of the transactions that the cases name.
pub fn names_are_listed<V>()
    ensures { (cases : List (Case V)) → AreNames cases (names_of cases) }
{}

/// A shown value is canonical.
pub fn shown_is_canonical()
    ensures { (catalog : Declared) (records : List Record) (item : ℕ) → IsCanonical (shown catalog records item) }
{}

/// A shown value is the item's value at every assignment.
pub fn shown_has_the_value()
    ensures { (catalog : Declared) (records : List Record) (item : ℕ) (assignment : List TxnId) →
        value_at (shown catalog records item) assignment ≡ Some (item_value catalog records item assignment) }
{}

/// A shown value names no outcome that is known.
pub fn shown_names_no_known()
    ensures { (catalog : Declared) (records : List Record) (item : ℕ) (txn : TxnId) → IsTrue (names (shown catalog records item) txn) →
        is_undecided records txn ≡ true }
{}

/// A new value is canonical, and at every assignment what the item is after the program.
pub fn new_values_are_computed()
    ensures canonical { (records : List Record) (entry : Entry) (item : ℕ) → IsCanonical (new_value records entry item) }
    ensures values { (records : List Record) (entry : Entry) (item : ℕ) (assignment : List TxnId) →
        value_at (new_value records entry item) assignment ≡ Some (row_after records entry item assignment) }
{}

/// A reply is canonical, and at every assignment what the program replies.
pub fn replies_are_computed()
    ensures canonical { (records : List Record) (entry : Entry) → IsCanonical (reply_value records entry) }
    ensures values { (records : List Record) (entry : Entry) (assignment : List TxnId) →
        value_at (reply_value records entry) assignment ≡ Some (reply_after records entry assignment) }
{}

/// One more promise: the item has its old value where the transaction doesn't commit, and else what is written, if it is written.
pub fn promises_are_choices()
    ensures { (catalog : Declared) (records : List Record) (txn : TxnId) (writes : List Read) (item : ℕ) (assignment : List TxnId) →
        item_value catalog (records ++ prepared txn writes ∷ []) item assignment ≡
        value_after item (choice records assignment) (item_value catalog records item assignment) (prepared txn writes) }
{}

/// One more outcome: the item has the value that it had where the transaction has this outcome.
pub fn outcomes_settle()
    ensures { (catalog : Declared) (records : List Record) (txn : TxnId) (commits : Bool) (item : ℕ) (assignment : List TxnId) →
        item_value catalog (records ++ outcome_known txn commits ∷ []) item assignment ≡
        item_value catalog records item (with_outcome txn commits assignment) }
{}

/// One more epoch changes no value.
pub fn epochs_change_no_value()
    ensures { (catalog : Declared) (records : List Record) (epoch : ℕ) (item : ℕ) (assignment : List TxnId) →
        item_value catalog (records ++ epoch_begun epoch ∷ []) item assignment ≡ item_value catalog records item assignment }
{}
