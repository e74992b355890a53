// What polyvalues are, as laws.
ghost use Rattle.std.specs.Prelude.{◌≡◌, ◌↔◌, Bool, List, IsTrue};
ghost use Rattle.pv_base.specs.declared.txn.TxnId.{TxnId};
ghost use Rattle.pv_base.specs.Polyvalue.{Case, IsCanonical, IsSound, AreSameEverywhere, DependsOnlyOn, names};

/// Canonical cases are sound: every assignment meets exactly one of them.
pub fn canonical_is_sound<V>()
    ensures { (cases : List (Case V)) → IsCanonical cases → IsSound cases }
{}

/// Values have one canonical list of cases at most.
pub fn one_canonical<V>()
    ensures { (cases others : List (Case V)) → IsCanonical cases → IsCanonical others → AreSameEverywhere cases others → cases ≡ others }
{}

/// Canonical cases name exactly the transactions that their value depends on: the value depends only on a set of
/// transactions exactly where all that are named are in it.
pub fn names_what_it_depends_on<V>()
    ensures { (cases : List (Case V)) (set : TxnId → Bool) → IsCanonical cases →
        DependsOnlyOn set cases ↔ ((txn : TxnId) → IsTrue (names cases txn) → IsTrue (set txn)) }
{}
