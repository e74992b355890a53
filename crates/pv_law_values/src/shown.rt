// What shown values are with one more record.
ghost use Rattle.std.specs.Prelude.{◌≡◌, ◌++◌, ◌∷◌, [], ℕ, ℤ, Bool, List, Some, if◌then◌else◌};
ghost use Rattle.pv_base.specs.Assignment.{commits, with_outcome};
ghost use Rattle.pv_base.specs.Catalog.{Declared};
ghost use Rattle.pv_base.specs.declared.txn.TxnId.{TxnId};
ghost use Rattle.pv_base.specs.Polyvalue.{Case, IsCanonical, value_at};
ghost use Rattle.pv_format.specs.Record.{Record, epoch_begun, outcome_known, prepared};
ghost use Rattle.pv_model.specs.Alternatives.{Read, number_at};
ghost use Rattle.pv_protocol.specs.Records.{choice};
ghost use Rattle.pv_protocol.specs.Shown.{item_value, item_within, shown, shown_within, written};

/// The value after a front of the records is the only canonical one that has the item's value at every assignment.
pub fn shown_values_are_the_only_ones()
    ensures { (catalog : Declared) (records front : List Record) (item : ℕ) (cases : List (Case ℤ)) → IsCanonical cases →
        ((a : List TxnId) → value_at cases a ≡ Some (item_within catalog records front item a)) → cases ≡ shown_within catalog records front item }
{}

/// A promise that writes an item: the new value where the transaction commits, else the old one.
pub fn promises_write_values()
    ensures { (catalog : Declared) (records front : List Record) (txn : TxnId) (writes : List Read) (item : ℕ) (new : List (Case ℤ)) →
        written item writes ≡ Some new → (a : List TxnId) → item_within catalog records (front ++ prepared txn writes ∷ []) item a ≡
        (if commits (choice records a) txn then number_at new (choice records a) else item_within catalog records front item a) }
{}

/// What is shown with one more outcome is what was shown, with the outcome put in.
pub fn outcomes_settle_values()
    ensures { (catalog : Declared) (records : List Record) (txn : TxnId) (outcome : Bool) (item : ℕ) (cases : List (Case ℤ)) → IsCanonical cases →
        ((a : List TxnId) → value_at cases a ≡ value_at (shown catalog records item) (with_outcome txn outcome a)) →
        cases ≡ shown catalog (records ++ outcome_known txn outcome ∷ []) item }
{}

/// A start changes nothing that is shown.
pub fn starts_change_no_value()
    ensures { (catalog : Declared) (records : List Record) (epoch item : ℕ) →
        shown catalog (records ++ epoch_begun epoch ∷ []) item ≡ shown catalog records item }
{}
