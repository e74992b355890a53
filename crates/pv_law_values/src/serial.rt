// The serial run: cut in two, what it leaves alone, and what it depends on.
ghost use Rattle.std.specs.Prelude.{◌≡◌, ◌++◌, ◌∷◌, [], ℕ, Bool, List, Some, false, true, All};
ghost use Rattle.pv_base.specs.Assignment.{AgreeOn, commits, is_same_txn};
ghost use Rattle.pv_base.specs.Catalog.{Declared};
ghost use Rattle.pv_base.specs.declared.txn.TxnId.{TxnId};
ghost use Rattle.pv_law_values.specs.Unassigned.{AssignNothing};
ghost use Rattle.pv_model.specs.Meaning.{Row, exec, value_in};
ghost use Rattle.pv_model.specs.Serial.{Ordered, declared_rows, serial, serial_reply, txns};
ghost use Rattle.pv_protocol.specs.Shown.{declared_value};

/// The second stretch of an order runs on what the first one left.
pub fn run_in_two()
    ensures { (rows : List Row) (front rest : List Ordered) (assignment : List TxnId) →
        serial rows (front ++ rest) assignment ≡ serial (serial rows front assignment) rest assignment }
{}

/// An item that no committing transaction of a stretch assigns has the same value after it.
pub fn unassigned_stays()
    ensures { (rows : List Row) (order : List Ordered) (assignment : List TxnId) (item : ℕ) → AssignNothing item assignment order →
        value_in (serial rows order assignment) item ≡ value_in rows item }
{}

/// The run depends on the outcomes of the order's transactions alone.
pub fn serial_is_fixed()
    ensures { (rows : List Row) (order : List Ordered) (assignment other : List TxnId) → AgreeOn (commits (txns order)) assignment other →
        serial rows order assignment ≡ serial rows order other }
{}

/// A transaction that commits runs in its turn on what those before it left.
pub fn runs_in_its_turn()
    ensures { (rows : List Row) (front : List Ordered) (entry : Ordered) (assignment : List TxnId) → commits assignment entry.txn ≡ true →
        serial rows (front ++ entry ∷ []) assignment ≡ (exec entry.program (serial rows front assignment)).rows }
{}

/// And there it replies, if it doesn't stand before its place too.
pub fn replies_in_its_turn()
    ensures { (rows : List Row) (front : List Ordered) (entry : Ordered) (rest : List Ordered) (assignment : List TxnId) →
        All (λ before. is_same_txn before.txn entry.txn ≡ false) front → commits assignment entry.txn ≡ true →
        serial_reply rows (front ++ entry ∷ rest) assignment entry.txn ≡ Some (exec entry.program (serial rows front assignment)).reply }
{}

/// Before any transaction each item has its declared value.
pub fn declared_before_all()
    ensures { (catalog : Declared) (item : ℕ) → value_in (declared_rows catalog) item ≡ declared_value catalog item }
{}
