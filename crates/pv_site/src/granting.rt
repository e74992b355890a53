// Grants that come in, and the lock point: with the last one the program is computed for each alternative of what was granted
// (Montgomery, 1979), and votes are asked for.
ghost use Rattle.std.specs.Prelude.{◌≡◌, ◌==◌, ◌++◌, ◌∷◌, [], map, find, Option, Some, None, IfOk, IfErr, IfSome, OnOk, if◌then◌else◌};
ghost use Rattle.std.specs.List.{AllZip};
ghost use Rattle.std.specs.List.Sorted.{IsNonDecreasingBy, IsPermutation};
ghost use Rattle.std.specs.Option.{option_copied, option_to_list};
ghost use Rattle.pv_coord.specs.Answers.{arrival, last, program_of, CanApply};
ghost use Rattle.pv_coord.specs.Coordinator.{grant_of, locking_work, work_of};
ghost use Rattle.pv_coord.specs.Work.{Work, grant_from};
ghost use Rattle.pv_model.specs.Alternatives as model;
ghost use Rattle.pv_protocol.specs.Coordinate.{exclusive_items, reads_of};
ghost use Rattle.pv_protocol.specs.Granted.{on_granted};
ghost use Rattle.pv_protocol.specs.State.{Entry};
ghost use Rattle.pv_site.specs.LockPoint.{HasItsReads, IsComputed, IsPutIn, IsTooMany, IsWritePutIn, ReadApart};
ghost use Rattle.pv_site.specs.SiteParts.{here_of, AreSound, StepParts};
ghost use Rattle.pv_site.specs.Shares.{prepare_if, prepare_send, prepares, writes_in};
ghost use Rattle.pv_site.specs.Values.{outgoing_of};
ghost use Rattle.pv_split.specs.Splitting.{count_of};

use crate::answers::nothing;
use crate::doubting::first_doubt;
use crate::parts::SiteParts;
use crate::sure::is_sure_throughout;
use crate::{Cause, Outgoing, Step};
use pv_ast::Program;
use pv_base::{GrantId, ItemId, NoMemory, SiteId, TxnId, Want};
use pv_check::Part;
use pv_coord::{Coord, GrantChange, GrantTaken};
use pv_split::{Joined, SplitError, split};
use pv_store::Store;
use pv_tree::Read;
use pv_wire::Message;
use std::alloc::Global;

impl SiteParts {
    // A participant has granted the locks.
    pub(crate) fn on_granted(
        &mut self,
        alloc: Global,
        from: SiteId,
        txn: TxnId,
        grant: GrantId,
        values: &[Read],
    ) -> Result<Step, NoMemory>
        requires { AreSound self.old }
        ensures { StepParts self.old self.new (on_granted (here_of self.old) from.0 txn grant values.now) result }
    {
        match self.coord.plan_granted(txn, from, grant, values)? {
            GrantTaken::Ignored => Ok(nothing(alloc)),
            GrantTaken::Wait(change) => {
                self.coord.apply_granted(change, None);
                Ok(nothing(alloc))
            }
            GrantTaken::Last { reads, change } => {
                self.on_last_grant(alloc, from, txn, grant, reads, change)
            }
        }
    }

    // The last grant: the transaction is refused if the values name too many outcomes together, or if an item has to be certain and isn't, and else is
    // at its lock point.
    fn on_last_grant(
        &mut self,
        alloc: Global,
        from: SiteId,
        txn: TxnId,
        grant: GrantId,
        reads: Vec<Read>,
        change: GrantChange,
    ) -> Result<Step, NoMemory>
        requires sound { AreSound self.old }
        requires change { change ≡ record { txn = txn; taken = record { site = from.0; grant = grant; values = change.taken.values } } }
        requires last { arrival (locking_work self.old.coord.contents txn) change ≡ last reads.items (program_of (locking_work self.old.coord.contents txn)) change }
        requires planned { CanApply self.old.coord.contents (last reads.items (program_of (locking_work self.old.coord.contents txn)) change) }
        ensures { StepParts self.old self.new (on_granted (here_of self.old) from.0 txn grant change.taken.values) result }
    {
        let program = program_at(&self.coord, txn);
        let first = first_doubt(alloc, &self.store, program, &reads)?;
        // Computed before a doubt is told: that it reads too much weighs more, and only the computation counts names.
        let joined = match computed(alloc, &self.store, program, reads) {
            Ok(joined) => joined,
            Err(SplitError::OutcomeLimit(names)) => {
                return self.refuse(alloc, txn, Cause::OutcomeLimit(names));
            }
            Err(SplitError::NoMemory) => return Err(NoMemory),
        };
        if let Some(doubt) = first {
            let cause = Cause::Uncertain {
                item: doubt.item,
                outcomes: doubt.outcomes,
            };
            return self.refuse(alloc, txn, cause);
        }
        let sends = prepare_sends(alloc, &self.coord, from, txn, grant, &joined.writes)?;
        self.coord.apply_granted(change, Some(joined.reply));
        Ok(Step {
            sends,
            notes: Vec::new(alloc),
            locked: Some(txn),
        })
    }
}

// The program of the transaction, for which locks are asked.
fn program_at(coord: &Coord, txn: TxnId) -> &Program
    requires { (work : Work) × (locking_work coord.now.contents txn ≡ Some work) }
    ensures { result.now ≡ program_of (locking_work coord.now.contents txn) }
{
    match coord.program(txn) {
        Some(program) => program,
        None => unreachable!(),
    }
}

// What the program writes and replies over the reads, once the outcomes are put in that the site knows.
fn computed(
    alloc: Global,
    store: &Store,
    program: &Program,
    reads: Vec<Read>,
) -> Result<Joined, SplitError>
    requires apart { ReadApart reads.items }
    requires items { HasItsReads program.now reads.items }
    ensures computed { IfOk result (λ joined. (entry : Entry) → entry.program ≡ program.now → reads_of entry ≡ reads.items →
        IsComputed store.now.records entry joined.writes.items joined.reply) }
    ensures refused { IfErr result (λ e. IfSome (count_of e) (IsTooMany reads.items)) }
{
    let reads = by_item(reads);
    let joined = split(alloc, program, &reads)?;
    Ok(settled(alloc, store, joined)?)
}

// The reads in the order of their items.
fn by_item(reads: Vec<Read>) -> Vec<Read>
    ensures permuted { IsPermutation reads.items result.items }
    ensures sorted { IsNonDecreasingBy (λ (read : model.Read). read.item) result.items }
{
    let mut reads = reads;
    reads.sort_unstable_by_key(|read| read.item.0);
    reads
}

// What was written and is replied, with the outcomes put in that the site knows.
fn settled(alloc: Global, store: &Store, joined: Joined) -> Result<Joined, NoMemory>
    ensures writes { IfOk result (λ settled. AllZip (IsWritePutIn store.now.records) joined.writes.items settled.writes.items) }
    ensures reply { IfOk result (λ settled. IsPutIn store.now.records joined.reply settled.reply) }
{
    if is_sure_throughout(&joined) {
        return Ok(joined);
    }
    settled_named(alloc, store, &joined)
}

// The same, where outcomes are named.
fn settled_named(alloc: Global, store: &Store, joined: &Joined) -> Result<Joined, NoMemory>
    ensures writes { IfOk result (λ settled. AllZip (IsWritePutIn store.now.records) joined.now.writes.items settled.writes.items) }
    ensures reply { IfOk result (λ settled. IsPutIn store.now.records joined.now.reply settled.reply) }
{
    let mut writes = Vec::with_capacity(alloc, joined.writes.len())?;
    for write in &joined.writes {
        writes.push(settled_write(alloc, store, write)?)?;
    }
    Ok(Joined {
        writes,
        reply: store.settled(alloc, &joined.reply)?,
    })
}

// What was written, with the outcomes put in that the site knows.
fn settled_write(alloc: Global, store: &Store, write: &Read) -> Result<Read, NoMemory>
    ensures { IfOk result (IsWritePutIn store.now.records write.now) }
{
    Ok(Read {
        item: write.item,
        value: store.settled(alloc, &write.value)?,
    })
}

// Each participant is asked for its vote on what is written to its items, under the grant that was taken from it.
fn prepare_sends(
    alloc: Global,
    coord: &Coord,
    from: SiteId,
    txn: TxnId,
    grant: GrantId,
    writes: &[Read],
) -> Result<Vec<Outgoing>, NoMemory>
    ensures { IfOk result (λ sends. (work : Work) → work_of coord.now.contents txn ≡ Some work →
        map outgoing_of sends.items ≡ prepares txn writes.now from.0 grant (grant_from work) work.parts) }
{
    let Some(plan) = coord.parts(txn) else {
        return Ok(Vec::new(alloc));
    };
    let mut sends = Vec::with_capacity(alloc, plan.parts.len())?;
    for part in &plan.parts {
        let grant = grant_with(coord, from, grant, txn, part.site);
        push_prepare(&mut sends, alloc, txn, grant, writes, part)?;
    }
    Ok(sends)
}

// The grant of the site: the one that has just come, where it is from there, or else the one that was taken before.
fn grant_with(
    coord: &Coord,
    from: SiteId,
    grant: GrantId,
    txn: TxnId,
    site: SiteId,
) -> Option<GrantId>
    ensures { result ≡ (if site.0 == from.0 then Some grant else grant_of (work_of coord.now.contents txn) site.0) }
{
    if site == from {
        return Some(grant);
    }
    coord.taken(txn, site)
}

// The part's site is asked for its vote, if there is a grant of it.
fn push_prepare(
    sends: &mut Vec<Outgoing>,
    alloc: Global,
    txn: TxnId,
    grant: Option<GrantId>,
    writes: &[Read],
    part: &Part,
) -> Result<(), NoMemory>
    ensures { OnOk result (map outgoing_of sends.new.items ≡ map outgoing_of sends.old.items ++ option_to_list (prepare_if txn writes.now part.now grant)) }
{
    if let Some(grant) = grant {
        sends.push(prepare_send(alloc, txn, grant, writes, part)?)?;
    }
    Ok(())
}

// The participant is asked for its vote on what is written to its exclusive items.
fn prepare_send(
    alloc: Global,
    txn: TxnId,
    grant: GrantId,
    writes: &[Read],
    part: &Part,
) -> Result<Outgoing, NoMemory>
    ensures { IfOk result (λ sent. outgoing_of sent ≡ prepare_send txn grant writes.now part.now) }
{
    Ok(Outgoing {
        to: part.site,
        message: Message::Prepare {
            txn,
            grant,
            writes: writes_for(alloc, writes, &part.wants)?,
        },
    })
}

// What is written to the items that are wanted exclusively.
fn writes_for(alloc: Global, writes: &[Read], wants: &[Want]) -> Result<Vec<Read>, NoMemory>
    ensures { IfOk result (λ own. own.items ≡ writes_in writes.now (exclusive_items wants.now)) }
{
    let mut own = Vec::with_capacity(alloc, wants.len())?;
    for want in wants {
        push_wanted(&mut own, alloc, writes, want)?;
    }
    Ok(own)
}

// What is written to the item, if it is wanted exclusively.
fn push_wanted(
    own: &mut Vec<Read>,
    alloc: Global,
    writes: &[Read],
    want: &Want,
) -> Result<(), NoMemory>
    ensures { OnOk result (own.new.items ≡ own.old.items ++ writes_in writes.now (exclusive_items (want.now ∷ []))) }
{
    if want.exclusive {
        push_write(own, alloc, want.item, writes)?;
    }
    Ok(())
}

// What is written to the item, if it is among the writes.
fn push_write(
    own: &mut Vec<Read>,
    alloc: Global,
    item: ItemId,
    writes: &[Read],
) -> Result<(), NoMemory>
    ensures { OnOk result (own.new.items ≡ own.old.items ++ writes_in writes.now (item.0 ∷ [])) }
{
    if let Some(write) = write_of(writes, item) {
        own.push(Read {
            item: write.item,
            value: write.value.copy(alloc)?,
        })?;
    }
    Ok(())
}

// The write of the item, if it is among these.
fn write_of(writes: &[Read], item: ItemId) -> Option<&Read>
    ensures { option_copied result ≡ find (λ (write : model.Read). write.item == item.0) writes.now }
{
    writes.iter().find(|write| write.item == item)
}
