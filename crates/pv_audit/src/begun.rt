// The transactions that requests began, each with its first request.
ghost use Rattle.std.specs.Prelude.{◌≡◌, ◌∷◌, ◌++◌, [], ℕ, List, length, MatchOption, OnOk, IfSome, IfNone};
ghost use Rattle.std.specs.Option.{option_map};
ghost use Rattle.pv_audit.specs.Kept.{KeepsFirst, KeepsPlans, IsPlanned};
ghost use Rattle.pv_audit.specs.Reports.{begun_by, request_of};
ghost use Rattle.pv_audit.specs.Views.{part_of};
ghost use Rattle.pv_base.specs.Catalog.{Declared};
ghost use Rattle.pv_base.specs.declared.txn.TxnId as code;
ghost use Rattle.pv_model.specs.Serial.{Ordered};
ghost use Rattle.pv_protocol.specs.Lines as model;
ghost use Rattle.pv_script.specs.LineView.{line_of};
ghost use Rattle.pv_script.specs.ScheduleView.{HasPlan};

use crate::trace::TracePart;
use indexmap::IndexMap;
use pv_ast::Program;
use pv_base::{NoMemory, TxnId};
use pv_check::Plan;
use pv_script::{Event, Line};
use std::alloc::Global;

/// A request.
#[derive(Clone, Copy, Debug)]
pub struct Request<'a> {
    /// Its program.
    pub program: &'a Program,
    /// What that wants of each site.
    pub plan: &'a Plan,
}

/// The requests that began transactions.
#[derive(Drop)]
pub struct Begun<'a> {
    /// Each transaction with its first request.
    requests: IndexMap<TxnId, Request<'a>>,
}

impl<'a> Begun<'a> {
    /// No request came yet.
    pub fn new(alloc: Global) -> Begun<'a>
        ensures first { KeepsFirst result [] }
        ensures plans { (count : ℕ) → KeepsPlans count result }
    {
        Begun {
            requests: IndexMap::new(alloc),
        }
    }

    /// Takes one more part of a trace.
    pub fn take(&mut self, part: &'a TracePart) -> Result<(), NoMemory>
        ensures first { (requests : List Ordered) → KeepsFirst self.old requests →
            OnOk result (KeepsFirst self.new (requests ++ begun_by (part_of part.now).event (part_of part.now).lines)) }
        ensures plans { (catalog : Declared) → KeepsPlans (length catalog.items) self.old → HasPlan catalog part.now.event →
            OnOk result (KeepsPlans (length catalog.items) self.new) }
    {
        let Some((txn, request)) = request_in(part) else {
            return Ok(());
        };
        if self.requests.contains_key(&txn) {
            return Ok(());
        }
        self.requests.insert(txn, request)?;
        Ok(())
    }

    /// The first request that began the transaction.
    pub fn request_of(&self, txn: TxnId) -> Option<Request<'a>>
        ensures first { (requests : List Ordered) → KeepsFirst self.now requests →
            option_map (λ request. record { txn = txn; program = request.program.now }) result ≡ request_of requests txn }
        ensures plan { (count : ℕ) → KeepsPlans count self.now → IfSome result (IsPlanned count) }
    {
        self.requests.get(&txn).copied()
    }
}

// The transaction that a request began, with the request.
fn request_in(part: &TracePart) -> Option<(TxnId, Request)>
    ensures begun { MatchOption result
        (begun_by (part_of part.now).event (part_of part.now).lines ≡ [])
        (λ found. begun_by (part_of part.now).event (part_of part.now).lines ≡ record { txn = found.0; program = found.1.program.now } ∷ []) }
    ensures plan { (catalog : Declared) → HasPlan catalog part.now.event → IfSome result (λ found. IsPlanned (length catalog.items) found.1) }
{
    let Event::Submit { program, plan, .. } = &part.event else {
        return None;
    };
    let [line] = part.lines.as_slice() else {
        return None;
    };
    let txn = txn_in(line)?;
    Some((txn, Request { program, plan }))
}

// The transaction that the line says is begun.
fn txn_in(line: &Line) -> Option<TxnId>
    ensures some { IfSome result (λ txn. line_of line.now ≡ model.Line.txn txn) }
    ensures none { IfNone result ((txn : code.TxnId) → line_of line.now ≡ model.Line.txn txn → ⊥) }
{
    match line {
        Line::Txn(txn) => Some(*txn),
        _ => None,
    }
}
