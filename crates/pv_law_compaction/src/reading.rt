// What is read of a list that stands for another.
ghost use Rattle.std.specs.Prelude.{◌≡◌, ℕ, IsTrue, List, None};
ghost use Rattle.std.specs.List.{list_any};
ghost use Rattle.pv_base.specs.Catalog.{Declared};
ghost use Rattle.pv_base.specs.Polyvalue.{value_at};
ghost use Rattle.pv_base.specs.declared.txn.TxnId.{TxnId};
ghost use Rattle.pv_format.specs.Record.{Record};
ghost use Rattle.pv_law_compaction.specs.Given.{AreConsistent, HeedsGiven, is_given};
ghost use Rattle.pv_law_compaction.specs.StandsFor.{StandsFor};
ghost use Rattle.pv_protocol.specs.Committed.{home_of, says_yes};
ghost use Rattle.pv_protocol.specs.Lock.{is_home};
ghost use Rattle.pv_protocol.specs.Records.{is_prepared, known};
ghost use Rattle.pv_protocol.specs.Shown.{shown};

/// The shown value of each of the site's items is the same at every assignment that heeds all records.
pub fn shown_values_are_the_same()
    ensures { (limit : ℕ) (catalog : Declared) (site : ℕ) (kept all : List Record) → StandsFor limit catalog site kept all →
        (item : ℕ) → IsTrue (is_home catalog site item) → (assignment : List TxnId) → HeedsGiven all assignment →
        value_at (shown catalog kept item) assignment ≡ value_at (shown catalog all item) assignment }
{}

/// Of a transaction whose outcome isn't known the same is prepared.
pub fn promises_are_the_same()
    ensures { (limit : ℕ) (catalog : Declared) (site : ℕ) (kept all : List Record) → StandsFor limit catalog site kept all →
        (txn : TxnId) → IsTrue (is_given txn) → known all txn ≡ None → is_prepared kept txn ≡ is_prepared all txn }
{}

/// Of a transaction that the site began it is the same whether it is committed, where no record contradicts an earlier one.
pub fn own_commits_are_the_same()
    ensures { (limit : ℕ) (catalog : Declared) (site : ℕ) (kept all : List Record) → StandsFor limit catalog site kept all → AreConsistent all →
        (txn : TxnId) → IsTrue (is_given txn) → home_of txn ≡ site → list_any (says_yes txn) kept ≡ list_any (says_yes txn) all }
{}
