// A coordinator, and what is done with its entries.
ghost use Rattle.std.specs.Prelude.{◌≡◌, ◌≢◌, ◌<◌, ◌≤◌, ◌+◌, ◌++◌, ◌∷◌, not, All, map, length, List, [], Option, Some, None, MatchOption, IfErr, IfOk, OnOk, is_some, ◌==◌, ◌&&◌, find, vec_len, vec_capacity};
ghost use Rattle.std.specs.Option.{option_map, option_copied};
ghost use Rattle.pv_base.specs.Answer.{Refuses};
ghost use Rattle.pv_base.specs.declared.limits.TheConstants.{NEVER_GIVEN, TICKS};
ghost use Rattle.pv_coord.specs.Answers.{refusal_of, ignored, arrival, arrival_of, program_of, vote_of, expiry_of, CanApply};
ghost use Rattle.pv_coord.specs.Coordinator.{next_txn, work_of, locking_work, voting_work, is_issued, refuses, grant_of, reply_of, without_work, beginning, taking, counting, older, lasting, expired, is_last, CanBegin, CanTake};
ghost use Rattle.pv_coord.specs.Place.{IsPlace};
ghost use Rattle.pv_coord.specs.Work.{Work, txn_of, begun};
ghost use Rattle.pv_base.specs.Assignment.{is_same_txn};
ghost use Rattle.pv_protocol.specs.Coordinate.{is_locking};
ghost use Rattle.pv_protocol.specs.Keyed.{of_txn, AreInOrder};

use crate::entry::Entry;
use crate::{BeginChange, CoordError, Expiry, GrantChange, GrantTaken, Vote};
use pv_ast::Program;
use pv_base::{GrantId, ItemId, NEVER_GIVEN, NoMemory, Reply, SiteId, TICKS, TxnId};
use pv_check::Plan;
use pv_tree::{Poly, Read};
use std::alloc::Global;
use std::marker::Model;

/// The transactions that a site has begun and not yet decided: their coordinator's side of two-phase commit (Gray, 1978).
///
/// Each has an entry: its program and plan; whether locks or votes are asked for, and for how many ticks; what was granted, and who has
/// voted. A transaction is found in time in proportion to the logarithm of the number of entries, and a call takes besides the time that
/// its own entry wants, unless it says otherwise.
#[derive(Debug, Drop)]
pub struct Coord {
    /// The site.
    site: SiteId,
    /// The site's epoch.
    epoch: u32,
    /// The number that the next transaction gets.
    next: u32,
    /// The entries, ascending by transaction.
    entries: Vec<Entry>,
}

impl Model for Coord {
    ghost use Rattle.std.specs.Prelude.{◌-◌, vec_len, vec_capacity};
    ghost use Rattle.pv_coord.specs.Coordinator.{CoordMemory, IsInOrder};
    ghost use Rattle.pv_coord.specs.WorkCode.{memory_code};

    ghost Value = { CoordMemory };

    ghost coded = { memory_code };

    ghost view = { λ c. record {
      contents = record { site = c.site.0; epoch = c.epoch; next = c.next; entries = c.entries.items };
      places = vec_capacity c.entries - vec_len c.entries;
    } };

    ghost invariant = { λ c. IsInOrder (record { site = c.site.0; epoch = c.epoch; next = c.next; entries = c.entries.items }) };
}

impl Coord {
    /// The coordinator of a site that has just started, in this epoch, without an entry. Its first transaction gets the number `next`.
    pub fn new(alloc: Global, site: SiteId, epoch: u32, next: u32) -> Coord
        ensures { result.contents ≡ record { site = site.0; epoch = epoch; next = next; entries = [] } }
    {
        Coord {
            site,
            epoch,
            next,
            entries: Vec::new(alloc),
        }
    }

    /// Plans the entry of the next transaction, of a program and its plan.
    ///
    /// It is refused as `Spent` exactly where the next number is [`NEVER_GIVEN`], and else may want memory. Nothing is changed but the room
    /// that is made, and what could begin before still can. Takes time in proportion to the program and its plan, and where there was no
    /// room, to the number of entries.
    pub fn plan_begin(&mut self, program: &Program, plan: &Plan) -> Result<BeginChange, CoordError>
        ensures change { IfOk result (λ change. change ≡ begun (next_txn self.old.contents) program.now plan.now.parts.items) }
        ensures planned { IfOk result (CanBegin self.new) }

        ensures refused { Refuses (refusal_of self.old.contents) CoordError.NoMemory result }
        ensures unchanged { self.new.contents ≡ self.old.contents }
        ensures kept { (work : Work) → CanBegin self.old work → CanBegin self.new work }
    {
        if self.next == NEVER_GIVEN {
            return Err(CoordError::Spent);
        }
        let txn = TxnId {
            site: self.site,
            epoch: self.epoch,
            number: self.next,
        };
        let alloc = *self.entries.allocator();
        let entry = Entry::begin(alloc, txn, program, plan)?;
        self.entries.reserve(1)?;
        Ok(BeginChange { txn, entry })
    }

    /// Begins the transaction: its entry asks for locks, with age 0. It takes one place, and no other is given back.
    pub fn apply_begin(&mut self, change: BeginChange) -> TxnId
        requires planned { CanBegin self.old change }
        ensures txn { result ≡ change.entry.txn }
        ensures begun { self.new.contents ≡ beginning self.old.contents change }
        ensures places { self.old.places ≤ self.new.places + 1 }
    {
        let BeginChange { txn, entry } = change;
        self.entries.push_reserved(entry);
        self.next += 1;
        txn
    }

    /// What the grant of a site, with these values, is to its transaction. Nothing is changed. There may be no memory only where notice is
    /// taken of the grant.
    ///
    /// With the last grant it takes time in proportion to all that was granted.
    pub fn plan_granted(
        &mut self,
        txn: TxnId,
        from: SiteId,
        grant: GrantId,
        values: &[Read],
    ) -> Result<GrantTaken, NoMemory>
        ensures answer { IfOk result (λ answer.
            arrival_of (program_of (locking_work self.old.contents txn)) answer ≡ arrival (locking_work self.old.contents txn)
            (record { txn = txn; taken = record { site = from.0; grant = grant; values = values.now } })) }
        ensures memory { IfErr result (λ _.
            arrival (locking_work self.old.contents txn) (record { txn = txn; taken = record { site = from.0; grant = grant; values = values.now } }) ≢ ignored) }
        ensures planned { IfOk result (λ answer. CanApply self.new.contents (arrival_of (program_of (locking_work self.old.contents txn)) answer)) }
        ensures unchanged { self.new ≡ self.old }
    {
        let alloc = *self.entries.allocator();
        let Some(entry) = locking_entry(&self.entries, txn) else {
            return Ok(GrantTaken::Ignored);
        };
        entry.plan_grant(alloc, txn, from, grant, values)
    }

    /// Takes the grant, which was planned on what is known now. With the last one there is a reply, which is what the program replies once
    /// all are granted, and the entry is at its lock point: from then on it asks for votes, with age 0.
    pub fn apply_granted(&mut self, change: GrantChange, reply: Option<Poly<Reply>>)
        requires planned { CanTake self.old.contents change }
        requires reply { is_some reply ≡ is_last self.old.contents change }
        ensures { self.new ≡ record self.old { contents = taking self.old.contents change reply } }
    {
        let GrantChange { txn, taken } = change;
        match place_of(&self.entries, txn) {
            Some(place) => {
                let entry = &mut self.entries[place];
                entry.take(taken, reply);
            }
            None => {}
        }
    }

    /// Whether the transaction is refused where the site denies it the lock of the item: locks are asked for it, and this one of this
    /// site, which hasn't granted them.
    pub fn denied(&self, txn: TxnId, from: SiteId, item: ItemId) -> bool
        ensures { result ≡ refuses (locking_work self.now.contents txn) from.0 item.0 }
    {
        match locking_entry(&self.entries, txn) {
            Some(entry) => entry.is_denied(from, item),
            None => false,
        }
    }

    /// What a vote of the site is to the transaction.
    pub fn vote(&self, txn: TxnId, from: SiteId) -> Vote
        ensures { result ≡ vote_of (voting_work self.now.contents txn) from.0 }
    {
        match voting_entry(&self.entries, txn) {
            Some(entry) => entry.vote_of(from),
            None => Vote::Ignored,
        }
    }

    /// Counts the vote of the site. Where it is to be ignored, nothing is changed.
    pub fn take_vote(&mut self, txn: TxnId, from: SiteId)
        ensures { self.new ≡ record self.old { contents = counting self.old.contents txn from.0 } }
    {
        match place_of(&self.entries, txn) {
            Some(place) => {
                let entry = &mut self.entries[place];
                entry.count_vote(from);
            }
            None => {}
        }
    }

    /// Drops the entry of the transaction. Where there is none, nothing is changed. What could begin before still can. The entries behind it are
    /// moved.
    pub fn drop_entry(&mut self, txn: TxnId)
        ensures dropped { self.new.contents ≡ without_work self.old.contents txn }
        ensures kept { (work : Work) → CanBegin self.old work → CanBegin self.new work }
    {
        match place_of(&self.entries, txn) {
            Some(place) => {
                self.entries.remove(place);
            }
            None => {}
        }
    }

    /// The entries that the next [`apply_tick`](Coord::apply_tick) drops, each with the least site whose grant or vote is missing, ascending
    /// by transaction. Takes time in proportion to the entries.
    pub fn plan_tick(&mut self) -> Result<Vec<Expiry>, NoMemory>
        ensures expiries { IfOk result (λ expiries. expiries.items ≡ map expiry_of (expired (older self.old.contents.entries))) }
        ensures unchanged { self.new ≡ self.old }
    {
        let mut expiries = Vec::new(*self.entries.allocator());
        push_expiries(&mut expiries, &self.entries)?;
        Ok(expiries)
    }

    /// Each entry is a tick older, and those are dropped that have come to their last tick. What could begin before still can. Takes time in
    /// proportion to the entries.
    pub fn apply_tick(&mut self)
        ensures older { self.new.contents ≡ record self.old.contents { entries = lasting (older self.old.contents.entries) } }
        ensures kept { (work : Work) → CanBegin self.old work → CanBegin self.new work }
    {
        age(&mut self.entries);
        keep_young(&mut self.entries);
    }

    /// Whether the site works on the transaction.
    pub fn works(&self, txn: TxnId) -> bool
        ensures { result ≡ is_some (work_of self.now.contents txn) }
    {
        entry_of(&self.entries, txn).is_some()
    }

    /// The grant that was taken from the site, where votes are asked on the transaction.
    pub fn votes_on(&self, txn: TxnId, site: SiteId) -> Option<GrantId>
        ensures { result ≡ grant_of (voting_work self.now.contents txn) site.0 }
    {
        voting_entry(&self.entries, txn)?.grant_from(site)
    }

    /// Whether the site may have numbered the transaction: in an epoch that has passed, or in this one if it has given the number.
    pub fn issued(&self, txn: TxnId) -> bool
        ensures { result ≡ is_issued self.now.contents txn }
    {
        txn.site == self.site
            && (txn.epoch < self.epoch || (txn.epoch == self.epoch && txn.number < self.next))
    }

    /// The program of the transaction, if locks are asked for it.
    pub fn program(&self, txn: TxnId) -> Option<&Program>
        ensures { option_map (λ program. program.now) result ≡ option_map (λ (work : Work). work.entry.program) (locking_work self.now.contents txn) }
    {
        match locking_entry(&self.entries, txn) {
            Some(entry) => Some(&entry.program),
            None => None,
        }
    }

    /// The plan of the transaction, if it is worked on.
    pub fn parts(&self, txn: TxnId) -> Option<&Plan>
        ensures { option_map (λ plan. plan.now.parts.items) result ≡ option_map (λ (work : Work). work.parts) (work_of self.now.contents txn) }
    {
        match entry_of(&self.entries, txn) {
            Some(entry) => Some(&entry.plan),
            None => None,
        }
    }

    /// The grant that was taken from the site, if one was.
    pub fn taken(&self, txn: TxnId, site: SiteId) -> Option<GrantId>
        ensures { result ≡ grant_of (work_of self.now.contents txn) site.0 }
    {
        entry_of(&self.entries, txn)?.grant_from(site)
    }

    /// What the transaction replies, from its lock point on.
    pub fn reply(&self, txn: TxnId) -> Option<&Poly<Reply>>
        ensures { option_copied result ≡ reply_of (work_of self.now.contents txn) }
    {
        match entry_of(&self.entries, txn) {
            Some(entry) => entry.reply(),
            None => None,
        }
    }

    /// Whether the site works on any transaction.
    pub fn any(&self) -> bool
        ensures { result ≡ not (length self.now.contents.entries == 0) }
    {
        !self.entries.is_empty()
    }
}

// Where the entry of the transaction is, if there is one.
fn place_of(entries: &[Entry], txn: TxnId) -> Option<usize>
    requires ordered { AreInOrder txn_of entries.now }
    ensures { MatchOption result (of_txn txn_of txn entries.now ≡ None) (IsPlace entries.now txn) }
{
    entries.binary_search_by_key(&txn, |entry| entry.txn()).ok()
}

// The entry of the transaction, if there is one.
fn entry_of(entries: &[Entry], txn: TxnId) -> Option<&Entry>
    requires ordered { AreInOrder txn_of entries.now }
    ensures { option_copied result ≡ of_txn txn_of txn entries.now }
{
    match place_of(entries, txn) {
        Some(place) => Some(&entries[place]),
        None => None,
    }
}

// The entry of the transaction, if there is one and it asks for locks.
fn locking_entry(entries: &[Entry], txn: TxnId) -> Option<&Entry>
    requires ordered { AreInOrder txn_of entries.now }
    ensures { option_copied result ≡ find (λ (work : Work). is_same_txn txn work.entry.txn && is_locking work.entry.stage) entries.now }
{
    match entry_of(entries, txn) {
        Some(entry) => {
            if !entry.is_locking() {
                return None;
            }
            Some(entry)
        }
        None => None,
    }
}

// The entry of the transaction, if there is one and it asks for votes.
fn voting_entry(entries: &[Entry], txn: TxnId) -> Option<&Entry>
    requires ordered { AreInOrder txn_of entries.now }
    ensures { option_copied result ≡ find (λ (work : Work). is_same_txn txn work.entry.txn && not (is_locking work.entry.stage)) entries.now }
{
    match entry_of(entries, txn) {
        Some(entry) => {
            if entry.is_locking() {
                return None;
            }
            Some(entry)
        }
        None => None,
    }
}

// Appends the expiry of each entry that comes to its last tick.
fn push_expiries(expiries: &mut Vec<Expiry>, entries: &[Entry]) -> Result<(), NoMemory>
    requires young { All (λ (work : Work). work.entry.age < TICKS) entries.now }
    ensures { OnOk result (expiries.new.items ≡ expiries.old.items ++ map expiry_of (expired (older entries.now))) }
{
    for entry in entries {
        push_expiry(expiries, entry)?;
    }
    Ok(())
}

// Appends the expiry of the entry, if it comes to its last tick.
fn push_expiry(expiries: &mut Vec<Expiry>, entry: &Entry) -> Result<(), NoMemory>
    requires young { entry.now.entry.age < TICKS }
    ensures { (rest : List Work) → OnOk result
        (expiries.new.items ++ map expiry_of (expired (older rest)) ≡ expiries.old.items ++ map expiry_of (expired (older (entry.now ∷ rest)))) }
{
    if entry.expires() {
        expiries.push(entry.expiry())?;
    }
    Ok(())
}

// Makes each entry a tick older.
fn age(entries: &mut [Entry])
    requires young { All (λ (work : Work). work.entry.age < TICKS) entries.old }
    ensures { entries.new ≡ older entries.old }
{
    for entry in entries.iter_mut() {
        entry.age();
    }
}

// Drops the entries that have come to their last tick.
fn keep_young(entries: &mut Vec<Entry>)
    ensures lasting { entries.new.items ≡ lasting entries.old.items }
    ensures fewer { vec_len entries.new ≤ vec_len entries.old }
    ensures capacity { vec_capacity entries.new ≡ vec_capacity entries.old }
{
    entries.retain(|entry| entry.is_young());
}
