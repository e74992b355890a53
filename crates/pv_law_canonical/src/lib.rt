//! The laws of the canonical cases of a function of outcomes. The functions do nothing: each states a law.
#![tactic(auto)]

ghost use Rattle.std.specs.Prelude.{◌≡◌, ℕ, Bool, List, Some, [], ◌∷◌, false, true, if◌then◌else◌, nat_eq, map, IsTrue};
ghost use Rattle.std.specs.List.{Contains, filter};
ghost use Rattle.pv_base.specs.Assignment.{AreAscending, assignments, commits};
ghost use Rattle.pv_base.specs.Canonical.{IsExact, IsFunctionOf, are_same_cases, canonical_cases};
ghost use Rattle.pv_base.specs.Polyvalue.{AreValues, Case, IsCanonical, names, value_at};
ghost use Rattle.pv_base.specs.declared.literal.Literal.{Literal};
ghost use Rattle.pv_base.specs.declared.txn.TxnId.{TxnId};

/// They are canonical.
pub fn are_canonical<V>()
    ensures { (same : V → V → Bool) (txns : List TxnId) (f : List TxnId → V) → IsExact same → AreAscending txns →
        IsCanonical (canonical_cases same txns f) }
{}

/// They name only transactions of the list.
pub fn name_only_listed<V>()
    ensures { (same : V → V → Bool) (txns : List TxnId) (f : List TxnId → V) (txn : TxnId) →
        IsTrue (names (canonical_cases same txns f) txn) → Contains txns txn }
{}

/// Where the function depends only on the transactions of the list, the value at every assignment is the function's.
pub fn have_its_values<V>()
    ensures { (same : V → V → Bool) (txns : List TxnId) (f : List TxnId → V) → IsExact same → AreAscending txns → IsFunctionOf txns f →
        (assignment : List TxnId) → value_at (canonical_cases same txns f) assignment ≡ Some (f assignment) }
{}

/// Whatever the function depends on, the value at an assignment is the function's where of these transactions the same commit and no others do.
pub fn have_its_listed_values<V>()
    ensures { (same : V → V → Bool) (txns : List TxnId) (f : List TxnId → V) → IsExact same → AreAscending txns →
        (assignment : List TxnId) → value_at (canonical_cases same txns f) assignment ≡ Some (f (filter (commits assignment) txns)) }
{}

/// Their table over the transactions is the function's.
pub fn have_its_table<V>()
    ensures { (same : V → V → Bool) (txns : List TxnId) (f : List TxnId → V) → IsExact same → AreAscending txns →
        AreValues (canonical_cases same txns f) txns (map f (assignments txns)) }
{}

/// They are the only canonical cases with the function's values.
pub fn are_the_only_ones<V>()
    ensures { (same : V → V → Bool) (txns : List TxnId) (f : List TxnId → V) → IsExact same → AreAscending txns → IsFunctionOf txns f →
        (cases : List (Case V)) → IsCanonical cases → ((assignment : List TxnId) → value_at cases assignment ≡ Some (f assignment)) →
        cases ≡ canonical_cases same txns f }
{}

/// Functions that are equal at every assignment of the transactions have equal cases.
pub fn follow_the_table<V>()
    ensures { (same : V → V → Bool) (txns : List TxnId) (f g : List TxnId → V) → AreAscending txns →
        map f (assignments txns) ≡ map g (assignments txns) → canonical_cases same txns f ≡ canonical_cases same txns g }
{}

/// It doesn't matter by which list they are made, if the function depends only on the transactions of each.
pub fn are_free_of_the_list<V>()
    ensures { (same : V → V → Bool) (txns others : List TxnId) (f : List TxnId → V) → IsExact same → AreAscending txns → AreAscending others →
        IsFunctionOf txns f → IsFunctionOf others f → canonical_cases same txns f ≡ canonical_cases same others f }
{}

/// Where values are compared exactly, so are cases.
pub fn same_cases_are_exact<V>()
    ensures { (same : V → V → Bool) → IsExact same → IsExact (are_same_cases same) }
{}

/// For example, of three transactions: a value that is 7 where the first commits, else 8 where the third does, and else 9.
pub fn are_computed()
    ensures { let number : ℕ → TxnId = λ n. record { site = record { 0 = 0 }; epoch = 1; number = n } in
        let when : ℕ → Bool → Literal = λ n outcome. record { txn = number n; commits = outcome } in
        canonical_cases nat_eq (number 0 ∷ number 1 ∷ number 2 ∷ []) (λ a. if commits a (number 0) then 7 else (if commits a (number 2) then 8 else 9)) ≡
        record { when = when 0 false ∷ when 2 false ∷ []; value = 9 } ∷
        record { when = when 0 false ∷ when 2 true ∷ []; value = 8 } ∷
        record { when = when 0 true ∷ []; value = 7 } ∷ [] }
{}
