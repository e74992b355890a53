// The possible answers of a reply, and the certain one.
ghost use Rattle.std.specs.Prelude.{◌≡◌, ◌≢◌, List, Some, All, IfOk, IfSome, IsSomeAnd};
ghost use Rattle.std.specs.List.{AllPairs, Contains};
ghost use Rattle.pv_base.specs.Polyvalue.{value_at};
ghost use Rattle.pv_base.specs.declared.txn.TxnId.{TxnId};
ghost use Rattle.pv_base.specs.declared.reply.Reply.{Reply};
ghost use Rattle.pv_model.specs.PossibleAnswers.{possible, certain};

use crate::repeats::Distinct;
use pv_ast::Reply;
use pv_base::{Case, NoMemory};
use pv_tree::Poly;
use std::alloc::Global;

/// Every reply that some outcomes give, each once, in the order of the cases. Takes time in proportion to the cases.
pub fn possible(alloc: Global, reply: &Poly<Reply>) -> Result<Vec<Reply>, NoMemory>
    ensures possible { IfOk result (λ replies. replies.items ≡ possible ⟦<Reply as PartialEq>⟧.eq reply.now) }

    ensures distinct { IfOk result (λ replies. AllPairs (λ reply later. reply ≢ later) replies.items) }

    // They are the replies at all assignments: no reply is left out, and each is given at some assignment.
    ensures every { (assignment : List TxnId) → IfOk result (λ replies. IsSomeAnd (value_at reply.now assignment) (Contains replies.items)) }
    ensures each { IfOk result (λ replies. All (λ possible. (assignment : List TxnId) × (value_at reply.now assignment ≡ Some possible)) replies.items) }
{
    replies_of(alloc, reply.cases())
}

// The replies of these cases, each once, in their order.
fn replies_of(alloc: Global, cases: &[Case<Reply>]) -> Result<Vec<Reply>, NoMemory>
    ensures { IfOk result (λ replies. replies.items ≡ possible ⟦<Reply as PartialEq>⟧.eq cases.now) }
{
    if let [only] = cases {
        // Most replies depend on no outcome, and aren't looked for among others.
        return Ok(Vec::from_slice(alloc, &[only.value])?);
    }
    let mut replies = Distinct::new(alloc);
    for case in cases {
        replies.push(case.value)?;
    }
    replies.list()
}

/// The reply that every assignment of outcomes gives, if there is one. Takes the same time whatever the reply is.
pub fn certain(reply: &Poly<Reply>) -> Option<Reply>
    ensures certain { result ≡ certain ⟦<Reply as PartialEq>⟧.eq reply.now }

    // It is the reply at every assignment, and where there is such a reply it is given.
    ensures every { (assignment : List TxnId) → IfSome result (λ answer. value_at reply.now assignment ≡ Some answer) }
    ensures given { (same : Reply) → ((assignment : List TxnId) → value_at reply.now assignment ≡ Some same) → result ≡ Some same }
{
    match reply.cases() {
        [case] => Some(case.value),
        _ => None,
    }
}
