// What a coordinator holds of one transaction.
ghost use Rattle.std.specs.Prelude.{if◌then◌else◌, ◌≡◌, ◌≤◌, ◌<◌, ◌+◌, ◌++◌, ◌∷◌, length, take, drop, not, ◌==◌, ◌||◌, nat_lt, map, find, Option, Some, None, false, IfErr, IfOk, OnOk, ℕ};
ghost use Rattle.std.specs.List.{list_all, list_any, flat_map, position, zip};
ghost use Rattle.std.specs.Option.{unwrap_or, option_copied};
ghost use Rattle.pv_base.specs.declared.limits.TheConstants.{TICKS};
ghost use Rattle.pv_base.specs.Want as wanted;
ghost use Rattle.pv_coord.specs.Answers.{arrival_at, arrival_of, vote_at, expiry_of};
ghost use Rattle.pv_coord.specs.Work.{begun, txn_of, sites_of, wants_at, is_unawaited, is_grant_ignored, is_denial_ignored, is_vote_ignored, has_all_grants, has_all_votes, with_grant, after_grant, with_vote, grant_from, awaited};
ghost use Rattle.pv_base.specs.declared.txn.SiteId.{SiteId};
ghost use Rattle.pv_model.specs.Alternatives as alternatives;
ghost use Rattle.pv_model.specs.Check as model;
ghost use Rattle.pv_protocol.specs.Coordinate.{is_locking, has_taken, with_taken, reads_of, are_values_of};
ghost use Rattle.pv_protocol.specs.Granted.{is_wanted};
ghost use Rattle.pv_protocol.specs.Here.{is_among};
ghost use Rattle.pv_protocol.specs.State as state;
ghost use Rattle.pv_protocol.specs.Tick.{has_answered};

use crate::reads::{copy_reads, push_reads};
use crate::stage::Stage;
use crate::taken::Taken;
use crate::{Expiry, GrantChange, GrantTaken, Vote};
use pv_ast::Program;
use pv_base::{GrantId, ItemId, NoMemory, Reply, SiteId, TICKS, TxnId, Want};
use pv_check::{Part, Plan};
use pv_tree::{Poly, Read};
use std::alloc::Global;
use std::marker::Model;

/// What a coordinator holds of one transaction.
#[derive(Debug, Drop)]
pub(crate) struct Entry {
    txn: TxnId,
    pub(crate) program: Program,
    pub(crate) plan: Plan,
    stage: Stage,
    /// For how many ticks it is in this stage.
    age: u8,
    /// What was granted, in the order of the sites, with room for what is still to come.
    taken: Vec<Taken>,
    /// The sites that voted yes, in the order of their votes, with room for those that are still to come.
    votes: Vec<SiteId>,
}

impl Model for Entry {
    ghost use Rattle.pv_coord.specs.Work.{Work};
    ghost use Rattle.pv_coord.specs.WorkCode.{work_code};

    ghost Value = { Work };

    ghost coded = { work_code };

    ghost use Rattle.pv_coord.specs.EntryView.{work_in, HasRoom};

    ghost view = { work_in };

    ghost invariant = { HasRoom };
}

impl Entry {
    /// The entry of a transaction that begins.
    pub(crate) fn begin(
        alloc: Global,
        txn: TxnId,
        program: &Program,
        plan: &Plan,
    ) -> Result<Entry, NoMemory>
        ensures { IfOk result (λ entry. entry ≡ begun txn program.now plan.now.parts.items) }
    {
        let program = program.copy(alloc)?;
        let plan = plan.copy(alloc)?;
        let participants = plan.parts.as_slice().len();
        let taken = Vec::with_capacity(alloc, participants)?;
        let votes = Vec::with_capacity(alloc, participants)?;
        Ok(Entry {
            txn,
            program,
            plan,
            stage: Stage::Locking,
            age: 0,
            taken,
            votes,
        })
    }

    /// The transaction.
    pub(crate) fn txn(&self) -> TxnId
        ensures { result ≡ txn_of self.now }
    {
        self.txn
    }

    /// Whether it asks for locks. Else it asks for votes.
    pub(crate) fn is_locking(&self) -> bool
        ensures { result ≡ is_locking self.now.entry.stage }
    {
        matches!(self.stage, Stage::Locking)
    }

    // Whether the site is a participant.
    fn has_participant(&self, site: SiteId) -> bool
        ensures { result ≡ is_among (sites_of self.now) site.0 }
    {
        is_site_of(&self.plan.parts, site)
    }

    // Whether a grant of the site was taken.
    fn has_taken(&self, site: SiteId) -> bool
        ensures { result ≡ has_taken self.now.entry site.0 }
    {
        is_granted(&self.taken, site)
    }

    // Whether the site has voted.
    fn has_voted(&self, site: SiteId) -> bool
        ensures { result ≡ is_among self.now.entry.votes site.0 }
    {
        is_voted(&self.votes, site)
    }

    // Whether a grant of the site is awaited.
    fn awaits_grant(&self, from: SiteId) -> bool
        ensures { result ≡ not (is_unawaited self.now from.0) }
    {
        self.has_participant(from) && !self.has_taken(from)
    }

    // Whether the site's grant of these values may be taken.
    fn fits(&self, from: SiteId, values: &[Read]) -> bool
        ensures { (grant : GrantId) → result ≡ not (is_grant_ignored self.now (record { site = from.0; grant = grant; values = values.now })) }
    {
        self.awaits_grant(from) && are_values_of(wants_at(&self.plan.parts, from), values)
    }

    /// Whether the site's denial of the item counts.
    pub(crate) fn is_denied(&self, from: SiteId, item: ItemId) -> bool
        ensures { result ≡ not (is_denial_ignored self.now from.0 item.0) }
    {
        self.awaits_grant(from) && is_wanted(wants_at(&self.plan.parts, from), item)
    }

    // Whether a grant of every participant is taken once that of this site is.
    fn completes_grants(&self, from: SiteId) -> bool
        ensures { (taken : state.Taken) → taken.site ≡ from.0 → result ≡ has_all_grants (with_grant self.now taken) }
    {
        all_granted_with(&self.plan.parts, &self.taken, from)
    }

    // Whether the site's vote counts.
    fn awaits_vote(&self, from: SiteId) -> bool
        ensures { result ≡ not (is_vote_ignored self.now from.0) }
    {
        self.has_participant(from) && !self.has_voted(from)
    }

    // Whether every participant has voted once this site has.
    fn completes_votes(&self, from: SiteId) -> bool
        ensures { result ≡ has_all_votes (with_vote self.now from.0) }
    {
        all_voted_with(&self.plan.parts, &self.votes, from)
    }

    /// The grant that was taken from the site, if one was.
    pub(crate) fn grant_from(&self, site: SiteId) -> Option<GrantId>
        ensures { result ≡ grant_from self.now site.0 }
    {
        self.taken
            .iter()
            .find(|taken| taken.site == site)
            .map(|taken| taken.grant)
    }

    // Copies of the values that were taken, with those of this site among them in the order of the sites.
    fn reads_with(
        &self,
        alloc: Global,
        from: SiteId,
        values: &[Read],
    ) -> Result<Vec<Read>, NoMemory>
        ensures { (grant : GrantId) → IfOk result (λ reads.
            reads.items ≡ reads_of (with_grant self.now (record { site = from.0; grant = grant; values = values.now })).entry) }
    {
        let (before, behind) = self.taken.split_at(place_of(&self.taken, from));
        let mut reads = Vec::new(alloc);
        push_taken(alloc, &mut reads, before)?;
        push_reads(alloc, &mut reads, values)?;
        push_taken(alloc, &mut reads, behind)?;
        Ok(reads)
    }

    /// What the site's grant of these values is to the transaction.
    pub(crate) fn plan_grant(
        &self,
        alloc: Global,
        txn: TxnId,
        from: SiteId,
        grant: GrantId,
        values: &[Read],
    ) -> Result<GrantTaken, NoMemory>
        ensures answer { IfOk result (λ answer.
            arrival_of self.now.entry.program answer ≡ arrival_at self.now (record { txn = txn; taken = record { site = from.0; grant = grant; values = values.now } })) }
        ensures memory { IfErr result (λ _. is_grant_ignored self.now (record { site = from.0; grant = grant; values = values.now }) ≡ false) }
    {
        if !self.fits(from, values) {
            return Ok(GrantTaken::Ignored);
        }
        let change = GrantChange {
            txn,
            taken: Taken {
                site: from,
                grant,
                values: copy_reads(alloc, values)?,
            },
        };
        if !self.completes_grants(from) {
            return Ok(GrantTaken::Wait(change));
        }
        let reads = self.reads_with(alloc, from, values)?;
        Ok(GrantTaken::Last { reads, change })
    }

    /// Takes the grant, for which there is room, since it is awaited. With what the program replies, which is known once every grant is
    /// taken, it asks for votes from now on.
    pub(crate) fn take(&mut self, taken: Taken, reply: Option<Poly<Reply>>)
        requires awaited { is_unawaited self.old taken.site ≡ false }
        ensures { self.new ≡ after_grant self.old taken reply }
    {
        let place = place_of(&self.taken, taken.site);
        self.taken.insert(place, taken).unwrap();
        let Some(reply) = reply else {
            return;
        };
        self.stage = Stage::Voting(reply);
        self.age = 0;
    }

    /// Counts the site's vote, for which there is room, unless no vote is asked for or this one is to be ignored.
    pub(crate) fn count_vote(&mut self, from: SiteId)
        ensures { self.new ≡ (if is_locking self.old.entry.stage || is_vote_ignored self.old from.0 then self.old else with_vote self.old from.0) }
    {
        if self.is_locking() || !self.awaits_vote(from) {
            return;
        }
        self.votes.push_reserved(from);
    }

    /// What a vote of the site is.
    pub(crate) fn vote_of(&self, from: SiteId) -> Vote
        ensures { result ≡ vote_at self.now from.0 }
    {
        if !self.awaits_vote(from) {
            return Vote::Ignored;
        }
        if !self.completes_votes(from) {
            return Vote::Wait;
        }
        Vote::Last
    }

    /// Whether it hasn't come to its last tick.
    pub(crate) fn is_young(&self) -> bool
        ensures { result ≡ nat_lt self.now.entry.age TICKS }
    {
        self.age < TICKS
    }

    /// Whether it comes to its last tick with the next one.
    pub(crate) fn expires(&self) -> bool
        requires young { self.now.entry.age < TICKS }
        ensures { result ≡ not (nat_lt (self.now.entry.age + 1) TICKS) }
    {
        self.age + 1 >= TICKS
    }

    /// It is a tick older.
    pub(crate) fn age(&mut self)
        requires young { self.old.entry.age < TICKS }
        ensures { self.new ≡ record self.old { entry = record self.old.entry { age = self.old.entry.age + 1 } } }
    {
        self.age += 1;
    }

    /// The transaction, and the site that is waited for.
    pub(crate) fn expiry(&self) -> Expiry
        ensures { result ≡ expiry_of self.now }
    {
        Expiry {
            txn: self.txn,
            site: self.awaited(),
        }
    }

    /// What the program replies, once it was computed.
    pub(crate) fn reply(&self) -> Option<&Poly<Reply>>
        ensures { option_copied result ≡ self.now.reply }
    {
        match &self.stage {
            Stage::Locking => None,
            Stage::Voting(reply) => Some(reply),
        }
    }

    // Whether the site has given what is asked for: its grant, or its vote.
    fn has_answered(&self, site: SiteId) -> bool
        ensures { result ≡ has_answered self.now.entry.stage self.now.entry site.0 }
    {
        match self.stage {
            Stage::Locking => self.has_taken(site),
            Stage::Voting(_) => self.has_voted(site),
        }
    }

    // The least participant that hasn't given what is asked for. Where there were none, it would be 0.
    fn awaited(&self) -> SiteId
        ensures { result.0 ≡ awaited self.now }
    {
        for part in &self.plan.parts {
            if !self.has_answered(part.site) {
                return part.site;
            }
        }
        SiteId(0)
    }
}

// Whether one of the parts is the site's.
fn is_site_of(parts: &[Part], site: SiteId) -> bool
    ensures { result ≡ list_any (λ (part : model.Part). site.0 == part.site) parts.now }
{
    parts.iter().any(|part| site == part.site)
}

// Whether one of the grants is the site's.
fn is_granted(taken: &[Taken], site: SiteId) -> bool
    ensures { result ≡ list_any (λ (taken : state.Taken). taken.site == site.0) taken.now }
{
    taken.iter().any(|taken| taken.site == site)
}

// Whether one of the votes is the site's.
fn is_voted(votes: &[SiteId], site: SiteId) -> bool
    ensures { result ≡ list_any (λ (other : SiteId). site.0 == other.0) votes.now }
{
    votes.iter().any(|other| site == *other)
}

// Whether each part's site has granted, or is this one.
fn all_granted_with(parts: &[Part], taken: &[Taken], from: SiteId) -> bool
    ensures { result ≡ list_all (λ (part : model.Part). (from.0 == part.site) || list_any (λ (t : state.Taken). t.site == part.site) taken.now) parts.now }
{
    parts
        .iter()
        .all(|part| from == part.site || is_granted(taken, part.site))
}

// Whether each part's site has voted, or is this one.
fn all_voted_with(parts: &[Part], votes: &[SiteId], from: SiteId) -> bool
    ensures { result ≡ list_all (λ (part : model.Part). list_any (λ (other : SiteId). part.site == other.0) votes.now || (part.site == from.0)) parts.now }
{
    parts
        .iter()
        .all(|part| is_voted(votes, part.site) || part.site == from)
}

// The site's part, if there is one.
fn part_of(parts: &[Part], site: SiteId) -> Option<&Part>
    ensures { option_copied result ≡ find (λ (part : model.Part). part.site == site.0) parts.now }
{
    parts.iter().find(|part| part.site == site)
}

// What the parts want of the site: what its part wants, if there is one.
fn wants_at(parts: &[Part], site: SiteId) -> &[Want]
    ensures { result.now ≡ wants_at parts.now site.0 }
{
    match part_of(parts, site) {
        Some(part) => &part.wants,
        None => &[],
    }
}

// Whether the item is one of these wants.
fn is_wanted(wants: &[Want], item: ItemId) -> bool
    ensures { result ≡ is_wanted wants.now item.0 }
{
    wants.iter().any(|want| want.item == item)
}

// Whether the first values are of the first wanted items, as far as both go.
fn agree(wants: &[Want], values: &[Read]) -> bool
    ensures { result ≡ list_all (λ (pair : wanted.Want × alternatives.Read). pair.1.item == pair.0.item) (zip wants.now values.now) }
{
    wants
        .iter()
        .zip(values)
        .all(|(want, value)| value.item == want.item)
}

// Whether the values are of the wanted items.
fn are_values_of(wants: &[Want], values: &[Read]) -> bool
    ensures { result ≡ are_values_of wants.now values.now }
{
    wants.len() == values.len() && agree(wants, values)
}

// The place of the first grant of a later site, if there is one.
fn later_than(taken: &[Taken], site: SiteId) -> Option<usize>
    ensures { result ≡ position (λ (other : state.Taken). nat_lt site.0 other.site) taken.now }
{
    taken.iter().position(|other| site < other.site)
}

// Where a grant of the site goes.
fn place_of(taken: &[Taken], site: SiteId) -> usize
    ensures place { (grant : state.Taken) → grant.site ≡ site.0 → with_taken grant taken.now ≡ take result taken.now ++ grant ∷ drop result taken.now }
    ensures within { result ≤ length taken.now }
{
    later_than(taken, site).unwrap_or(taken.len())
}

// Appends copies of the values that were taken.
fn push_taken(alloc: Global, list: &mut Vec<Read>, taken: &[Taken]) -> Result<(), NoMemory>
    ensures { OnOk result (list.new.items ≡ list.old.items ++ flat_map (λ (one : state.Taken). one.values) taken.now) }
{
    for one in taken {
        push_reads(alloc, list, &one.values)?;
    }
    Ok(())
}
