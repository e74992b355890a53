// Two cases: a choice between two values by one transaction, which is worked on without nodes of its own.
ghost use Rattle.std.specs.Prelude.{◌≡◌, false, true, [], ◌∷◌, ◌++◌, length, Some, IfOk, OnOk};
ghost use Rattle.pv_base.specs.Polyvalue.{value_at, under, IsCanonical};
ghost use Rattle.pv_cases.specs.Sides.{AreSides};
ghost use Rattle.pv_tree.specs.Meanings.{Keeps};
ghost use Rattle.pv_tree.specs.Settling.{Settles};

use crate::nodes::Nodes;
use crate::settling::outcome_of;
use crate::table::commits;
use pv_base::{Case, Exact, Literal, NoMemory, TxnId};

// A choice between two values by one transaction.
#[derive(Clone, Copy, Debug)]
struct Choice<V> {
    // The transaction.
    txn: TxnId,
    // The value where it doesn't commit.
    before: V,
    // The value where it does.
    after: V,
}

// The choice that two cases are.
fn choice_of<V: Copy>(cases: &[Case<V>]) -> Choice<V>
    requires canonical { IsCanonical cases.now }
    requires two { length cases.now ≡ 2 }
    ensures cases { cases.now ≡ under result.txn false (record { when = []; value = result.before } ∷ []) ++ under result.txn true (record { when = []; value = result.after } ∷ []) }
    ensures sides { AreSides result.txn (record { when = []; value = result.before } ∷ []) (record { when = []; value = result.after } ∷ []) }
{
    let before = &cases[0];
    let after = &cases[1];
    Choice {
        txn: before.when[0].txn,
        before: before.value,
        after: after.value,
    }
}

/// The value of two cases where exactly the transactions of `yes` commit.
pub fn value_of_two<V: Copy>(cases: &[Case<V>], yes: &[TxnId]) -> V
    requires canonical { IsCanonical cases.now }
    requires two { length cases.now ≡ 2 }
    ensures { value_at cases.now yes.now ≡ Some result }
{
    let choice = choice_of(cases);
    if commits(yes, choice.txn) {
        return choice.after;
    }
    choice.before
}

/// Puts two cases, once the outcomes of these transactions are known, among the nodes, and tells the number of their node there.
pub fn settle_two<V: Exact>(
    cases: &[Case<V>],
    literals: &[Literal],
    target: &mut Nodes<V>,
) -> Result<u32, NoMemory>
    requires canonical { IsCanonical cases.now }
    requires two { length cases.now ≡ 2 }
    ensures kept { OnOk result (Keeps target.old target.new) }
    ensures settled { IfOk result (Settles literals.now cases.now target.new) }
{
    let choice = choice_of(cases);
    match outcome_of(literals, choice.txn) {
        Some(true) => target.leaf(choice.after),
        Some(false) => target.leaf(choice.before),
        None => {
            let before = target.leaf(choice.before)?;
            let after = target.leaf(choice.after)?;
            target.test(choice.txn, before, after)
        }
    }
}
