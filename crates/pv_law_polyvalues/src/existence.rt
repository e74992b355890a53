// Laws on which cases exist for given values, and on the transactions that cases and choices name.
ghost use Rattle.std.specs.Prelude.{◌≡◌, ℕ, List, Some};
ghost use Rattle.std.specs.List.{Contains};
ghost use Rattle.pv_base.specs.declared.txn.TxnId.{TxnId};
ghost use Rattle.pv_base.specs.Assignment.{commits};
ghost use Rattle.pv_base.specs.Polyvalue.{Case, AreNames, ChoiceNames, IsCanonical, value_at};

use pv_base::Exact;

/// Every list of cases has a list of the transactions that it names.
pub fn some_names<V>()
    ensures { (cases : List (Case V)) → (txns : List TxnId) × AreNames cases txns }
{}

/// A list of cases has one such list at most.
pub fn one_names<V>()
    ensures { (cases : List (Case V)) (txns others : List TxnId) → AreNames cases txns → AreNames cases others → txns ≡ others }
{}

/// Every value that depends only on the outcomes of finitely many transactions has canonical cases.
pub fn some_canonical<V: Exact>()
    ensures { (value : List TxnId → V) (txns : List TxnId) →
        ((assignment other : List TxnId) → ((txn : TxnId) → Contains txns txn → commits assignment txn ≡ commits other txn) →
        value assignment ≡ value other) →
        (cases : List (Case V)) × IsCanonical cases × ((assignment : List TxnId) → value_at cases assignment ≡ Some (value assignment)) }
{}

/// Every choice between two polyvalues names some number of transactions.
pub fn some_choice<V: Exact>()
    ensures { (txn : TxnId) (aborted committed : List (Case V)) → IsCanonical aborted → IsCanonical committed → (count : ℕ) × ChoiceNames txn aborted committed count }
{}

/// A choice names one number of transactions at most.
pub fn one_choice<V>()
    ensures { (txn : TxnId) (aborted committed : List (Case V)) (count other : ℕ) → ChoiceNames txn aborted committed count → ChoiceNames txn aborted committed other → count ≡ other }
{}
