// Which case fits, by the locks and by what the store tells of the transaction (two-phase commit: Gray, 1978).
ghost use Rattle.std.specs.Prelude.{◌≡◌, ◌==◌, ◌||◌, Bool, not, List, Option, IsTrue};
ghost use Rattle.std.specs.List.{list_all};
ghost use Rattle.std.specs.Option.{option_map};
ghost use Rattle.pv_base.specs.Want.{Want};
ghost use Rattle.pv_locks.specs.LockTable.{grant_of};
ghost use Rattle.pv_model.specs.Alternatives.{Read};
ghost use Rattle.pv_part.specs.Cases.{IsReport, lock_passes, is_the_grant, prepare_case, IsPrepareStep, outcome_case, IsOutcomeStep};
ghost use Rattle.pv_protocol.specs.Here.{Here};
ghost use Rattle.pv_protocol.specs.Lock.{is_home, is_lock_ignored};
ghost use Rattle.pv_protocol.specs.Outcome.{is_named_here, on_outcome};
ghost use Rattle.pv_protocol.specs.State.{Grant};
ghost use Rattle.pv_protocol.specs.Vote.{on_prepare};

use pv_base::{GrantId, SiteId, TxnId};
use pv_locks::Locks;

/// What a participant does that is asked for its vote.
#[derive(Clone, Copy, Debug, PartialEq, Eq)]
pub enum PrepareCase {
    /// Nothing: the message isn't from the transaction's site.
    Nothing,
    /// It voted yes before, and does so again.
    Again,
    /// The very grant that it is asked about doesn't stand, so it votes no.
    Lost,
    /// That grant stands: the vote goes by the writes and by the room in the journal.
    Go,
}

/// What a participant does that is sent an outcome.
#[derive(Clone, Copy, Debug, PartialEq, Eq)]
pub enum OutcomeCase {
    /// Nothing: the message isn't from the transaction's site, the outcome is known, or it is a commit that isn't needed here.
    Nothing,
    /// The outcome is needed, and is recorded if the journal has room for it.
    Record,
    /// The transaction doesn't commit, and only its grant ends.
    Release,
}

/// Whether a lock message is taken notice of, whose items are all of this site. It is, where it comes from the transaction's site, and the
/// transaction has neither promised here nor an outcome that is known here: `prepared` and `known` are what the store says of that.
///
/// The locks have no say in it: what they answer to the message is [`Locks::plan_grant`]. Takes no memory.
pub fn on_lock(_locks: &Locks, txn: TxnId, from: SiteId, prepared: bool, known: bool) -> bool
    ensures case { result ≡ lock_passes (from.0 == txn.site.0) prepared known }
    ensures step { (here : Here) (wants : List Want) → IsReport here txn prepared known →
        IsTrue (list_all (λ want. is_home here.setup.catalog here.me want.item) wants) → result ≡ not (is_lock_ignored here from.0 txn wants) }
{
    lock_passes(is_site_of(from, txn), prepared, known)
}

/// Which case of a prepare message fits. `grant` is the one that it names, and `prepared` says whether the transaction has promised here.
/// Takes no memory.
pub fn on_prepare(
    locks: &Locks,
    txn: TxnId,
    from: SiteId,
    grant: GrantId,
    prepared: bool,
) -> PrepareCase
    ensures case { result ≡ prepare_case (from.0 == txn.site.0) prepared (is_the_grant grant (grant_of locks.now txn)) }
    ensures step { (here : Here) (known : Bool) (writes : List Read) → IsReport here txn prepared known → here.running.grants ≡ locks.now.grants →
        IsPrepareStep here txn writes result (on_prepare here from.0 txn grant writes) }
{
    prepare_case(
        is_site_of(from, txn),
        prepared,
        is_the_grant(grant, locks.holds(txn)),
    )
}

/// Which case of an outcome message fits. `known` and `prepared` say what the store knows of the transaction, and `named` whether a shown value
/// names it. Takes no memory.
pub fn on_outcome(
    txn: TxnId,
    from: SiteId,
    commits: bool,
    known: bool,
    prepared: bool,
    named: bool,
) -> OutcomeCase
    ensures case { result ≡ outcome_case (from.0 == txn.site.0) commits known (prepared || named) }
    ensures step { (here : Here) → IsReport here txn prepared known → named ≡ is_named_here here txn →
        IsOutcomeStep here txn commits result (on_outcome here from.0 txn commits) }
{
    outcome_case(is_site_of(from, txn), commits, known, prepared, named)
}

// Whether the site is the transaction's.
fn is_site_of(site: SiteId, txn: TxnId) -> bool
    ensures { result ≡ (site.0 == txn.site.0) }
{
    site.0 == txn.site.0
}

// Whether a lock message is taken notice of.
fn lock_passes(is_its_site: bool, prepared: bool, known: bool) -> bool
    ensures { result ≡ lock_passes is_its_site prepared known }
{
    is_its_site && !(prepared || known)
}

// The case of a prepare message.
fn prepare_case(is_its_site: bool, prepared: bool, stands: bool) -> PrepareCase
    ensures { result ≡ prepare_case is_its_site prepared stands }
{
    if !is_its_site {
        PrepareCase::Nothing
    } else if prepared {
        PrepareCase::Again
    } else if stands {
        PrepareCase::Go
    } else {
        PrepareCase::Lost
    }
}

// Whether the grant is the one that stands.
fn is_the_grant(grant: GrantId, standing: Option<GrantId>) -> bool
    ensures { (stands : Option Grant) → standing ≡ option_map (λ (grant : Grant). grant.id) stands → result ≡ is_the_grant grant stands }
{
    match standing {
        Some(standing) => grant.epoch == standing.epoch && grant.number == standing.number,
        None => false,
    }
}

// The case of an outcome message.
fn outcome_case(
    is_its_site: bool,
    commits: bool,
    known: bool,
    prepared: bool,
    named: bool,
) -> OutcomeCase
    ensures { result ≡ outcome_case is_its_site commits known (prepared || named) }
{
    if !is_its_site || known {
        OutcomeCase::Nothing
    } else if prepared || named {
        OutcomeCase::Record
    } else if commits {
        OutcomeCase::Nothing
    } else {
        OutcomeCase::Release
    }
}
