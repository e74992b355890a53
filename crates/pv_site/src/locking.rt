// Requests, and the locks that they ask for (two-phase locking: Eswaran, Gray, Lorie, Traiger, 1976).
ghost use Rattle.std.specs.Prelude.{◌≡◌, ◌<◌, ◌∷◌, [], None, map, IfOk, IsTrue};
ghost use Rattle.std.specs.List.{AllPairs, list_all};
ghost use Rattle.pv_base.specs.Want.{Want};
ghost use Rattle.pv_format.specs.Message.{granted};
ghost use Rattle.pv_model.specs.Plan.{plan_of};
ghost use Rattle.pv_protocol.specs.Lock.{on_submit, on_lock, lock_sends, is_home, is_lock_ignored};
ghost use Rattle.pv_site.specs.SiteParts.{here_of, AreTied, StepParts};
ghost use Rattle.pv_site.specs.Shares.{shown_values};
ghost use Rattle.pv_site.specs.Values.{outgoing_of};

use crate::answers::{nothing, noting, sending};
use crate::parts::SiteParts;
use crate::{Note, Outgoing, Step};
use pv_ast::Program;
use pv_base::{Catalog, GrantId, ItemId, NoMemory, SiteId, TxnId, Want};
use pv_check::{Part, Plan};
use pv_coord::CoordError;
use pv_locks::{GrantPlan, LockError};
use pv_part::on_lock;
use pv_store::Store;
use pv_tree::Read;
use pv_wire::Message;
use std::alloc::Global;

impl SiteParts {
    // The site is given a request.
    pub(crate) fn on_submit(
        &mut self,
        alloc: Global,
        program: &Program,
        plan: &Plan,
    ) -> Result<Step, NoMemory>
        requires tied { AreTied self.old }
        requires plan { plan.now.parts.items ≡ plan_of program.now self.old.catalog.items }
        ensures { StepParts self.old self.new (on_submit (here_of self.old) program.now) result }
    {
        let change = match self.coord.plan_begin(program, plan) {
            Ok(change) => change,
            Err(CoordError::Spent) => return noting(alloc, Note::Spent),
            Err(CoordError::NoMemory) => return Err(NoMemory),
        };
        let txn = change.txn;
        let sends = lock_sends(alloc, txn, &plan.parts)?;
        let mut notes = Vec::with_capacity(alloc, 1)?;
        notes.push(Note::Txn(txn))?;
        self.coord.apply_begin(change);
        Ok(Step {
            sends,
            notes,
            locked: None,
        })
    }

    // A transaction asks for locks.
    pub(crate) fn on_lock(
        &mut self,
        alloc: Global,
        from: SiteId,
        txn: TxnId,
        wants: &[Want],
    ) -> Result<Step, NoMemory>
        requires tied { AreTied self.old }
        requires ascending { AllPairs (λ (want later : Want). want.item < later.item) wants.now }
        ensures { StepParts self.old self.new (on_lock (here_of self.old) from.0 txn wants.now) result }
    {
        if self.ignores_lock(from, txn, wants) {
            return Ok(nothing(alloc));
        }
        match self.locks.plan_grant(txn, wants) {
            Ok(GrantPlan::Standing(grant)) => granting(alloc, &self.store, txn, grant, wants),
            Ok(GrantPlan::Misfit) => Ok(nothing(alloc)),
            Ok(GrantPlan::Conflict { item, holder }) => {
                sending(alloc, txn.site, Message::Denied { txn, item, holder })
            }
            Ok(GrantPlan::Fresh(change)) => {
                let values = values_of(alloc, &self.store, wants)?;
                let mut sends = Vec::with_capacity(alloc, 1)?;
                let grant = self.locks.apply(change);
                sends.push_reserved(Outgoing {
                    to: txn.site,
                    message: Message::Granted { txn, grant, values },
                });
                Ok(Step {
                    sends,
                    notes: Vec::new(alloc),
                    locked: None,
                })
            }
            Err(LockError::Spent) => noting(alloc, Note::Spent),
            Err(LockError::NoMemory) => Err(NoMemory),
        }
    }

    // Whether no notice is taken of the wants: an item isn't of this site, or they don't come from the transaction's, or the transaction is
    // prepared here or its outcome known.
    fn ignores_lock(&self, from: SiteId, txn: TxnId, wants: &[Want]) -> bool
        requires { AreTied self.now }
        ensures { result ≡ is_lock_ignored (here_of self.now) from.0 txn wants.now }
    {
        if !are_at(wants, &self.catalog, self.me) {
            return true;
        }
        let known = self.store.known(txn).is_some();
        !on_lock(&self.locks, txn, from, self.store.prepared(txn), known)
    }
}

// Each part's wants, asked for at its site.
fn lock_sends(alloc: Global, txn: TxnId, parts: &[Part]) -> Result<Vec<Outgoing>, NoMemory>
    ensures { IfOk result (λ sends. map outgoing_of sends.items ≡ lock_sends txn parts.now) }
{
    let mut sends = Vec::with_capacity(alloc, parts.len())?;
    for part in parts {
        sends.push(lock_send(alloc, txn, part)?)?;
    }
    Ok(sends)
}

// The part's wants, asked for at its site.
fn lock_send(alloc: Global, txn: TxnId, part: &Part) -> Result<Outgoing, NoMemory>
    ensures { IfOk result (λ sent. map outgoing_of (sent ∷ []) ≡ lock_sends txn (part.now ∷ [])) }
{
    let wants = Vec::from_slice(alloc, &part.wants)?;
    Ok(Outgoing {
        to: part.site,
        message: Message::Lock { txn, wants },
    })
}

// Whether all of the wants are of items of the site.
fn are_at(wants: &[Want], catalog: &Catalog, me: SiteId) -> bool
    ensures { result ≡ list_all (λ (want : Want). is_home catalog.now me.0 want.item) wants.now }
{
    wants.iter().all(|want| is_at(catalog, me, want.item))
}

// Whether the item is of the site.
fn is_at(catalog: &Catalog, me: SiteId, item: ItemId) -> bool
    ensures { result ≡ is_home catalog.now me.0 item.0 }
{
    item.0 < catalog.len() && catalog.site_of(item) == me
}

// The grant is sent with the values of its items now.
fn granting(
    alloc: Global,
    store: &Store,
    txn: TxnId,
    grant: GrantId,
    wants: &[Want],
) -> Result<Step, NoMemory>
    requires { IsTrue (list_all (λ (want : Want). is_home store.now.catalog store.now.site want.item) wants.now) }
    ensures sends { IfOk result (λ step. map outgoing_of step.sends.items
        ≡ record { to = txn.site.0; message = granted txn grant (shown_values store.now.catalog store.now.records wants.now) } ∷ []) }
    ensures notes { IfOk result (λ step. step.notes.items ≡ []) }
    ensures locked { IfOk result (λ step. step.locked ≡ None) }
{
    let values = values_of(alloc, store, wants)?;
    sending(alloc, txn.site, Message::Granted { txn, grant, values })
}

// The values of the wanted items now.
fn values_of(alloc: Global, store: &Store, wants: &[Want]) -> Result<Vec<Read>, NoMemory>
    requires { IsTrue (list_all (λ (want : Want). is_home store.now.catalog store.now.site want.item) wants.now) }
    ensures { IfOk result (λ values. values.items ≡ shown_values store.now.catalog store.now.records wants.now) }
{
    let mut values = Vec::with_capacity(alloc, wants.len())?;
    for want in wants {
        values.push(Read {
            item: want.item,
            value: store.show(want.item).copy(alloc)?,
        })?;
    }
    Ok(values)
}
