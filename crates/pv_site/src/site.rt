// A site over a log: what it makes of an input, and what can be asked of it.
ghost use Rattle.std.specs.Prelude.{◌≡◌, ◌↔◌, ◌<◌, ℕ, true, false, All, IfOk, IfErr, IsTrue, is_some};
ghost use Rattle.std.specs.List.{AllPairs};
ghost use Rattle.pv_base.specs.declared.catalog.ItemId as id;
ghost use Rattle.pv_model.specs.Plan.{plan_of};
ghost use Rattle.pv_protocol.specs.Committed.{entry_in};
ghost use Rattle.pv_protocol.specs.Lock.{is_home};
ghost use Rattle.pv_protocol.specs.Records.{is_prepared, known};
ghost use Rattle.pv_protocol.specs.WellFormed.{CanRun};
ghost use Rattle.pv_site.specs.Asked.{grant_held, grant_taken, is_touched, voting_at, IsIdle, Shows};
ghost use Rattle.pv_site.specs.Given.{IsGivenFor, input_in};
ghost use Rattle.pv_site.specs.Inputs.{IsInputFor, IsSpelledFrom};
ghost use Rattle.pv_site.specs.Opens.{Opens, log_in};
ghost use Rattle.pv_site.specs.Resumes.{CanResume, Resumes, log_left};
ghost use Rattle.pv_site.specs.Steps.{IsReady, Steps};
ghost use Rattle.pv_site.specs.Values.{input_of};
ghost use Rattle.pv_store.specs.StandingHere.{is_one_of};

use crate::numbers::has_small_numbers;
use crate::opening::{Loaded, load, setup_is_in_range, unopened};
use crate::parts::SiteParts;
use crate::recovered::{Advanced, Begun};
use crate::taking::take;
use crate::{Given, Input, OpenError, Recovered, ResumeError, Shown, Step, StepError};
use pv_ast::Program;
use pv_base::{Catalog, GrantId, ItemId, SiteId, TxnId};
use pv_check::{Plan, fits};
use pv_disk::Log;
use pv_law_step::starts_are_sound;
use std::alloc::Global;
use std::marker::Model;

/// A site of the database, over a log.
///
/// It begins and coordinates transactions (two-phase commit: Gray, 1978), grants locks on its items (two-phase locking: Eswaran, Gray,
/// Lorie, Traiger, 1976), and holds their values, which may depend on outcomes that it doesn't know (polyvalues: Montgomery, 1979). All that
/// outlives a crash is in its log, a record a step at most. When the log fails the site is down, and is to be opened again on its log.
#[derive(Drop)]
pub struct Site<L: Log> {
    /// Where its memory comes from.
    pub(crate) alloc: Global,
    /// Where its records are.
    pub(crate) log: L,
    /// What it has in memory, and what its records say.
    pub(crate) parts: SiteParts,
    /// The epoch in which it was opened.
    pub(crate) epoch: u32,
    /// Whether the opening read no contents.
    pub(crate) first: bool,
    /// Whether the log failed since the opening.
    pub(crate) down: bool,
}

impl<L: Log> Model for Site<L> {
    ghost use Rattle.pv_site.specs.SiteState.{SiteState};
    ghost use Rattle.pv_site.specs.SiteView.{state_of, IsSite};

    ghost Value = { SiteState L };

    ghost use Rattle.std.specs.Coded.{codes};
    ghost use Rattle.pv_model.specs.SyntaxCodes.{program_code};

    ghost coded = { Prim.hlevel (codes, program_code) };

    ghost view = { state_of };

    ghost invariant = { IsSite };
}

impl<L: Log> Site<L> {
    ghost use Rattle.std.specs.Borrow.{Lends, sem};
    ghost use Rattle.pv_site.specs.contracts.site.Site.{the_row};
    ghost use Rattle.pv_site.specs.Lending.{with_log};

    /// Opens the site on its log: it reads its records and goes on from what they say, in the epoch after the last one, which it records. It
    /// has no grants and no entries. Takes time in proportion to the log and to the catalog.
    ///
    /// The log isn't down, and its limit is the catalog's. It comes back in each refusal, of which the first one is answered that there is:
    ///
    /// 1. [`OpenError::Failed`], [`OpenError::NotOurs`]: the log couldn't be read.
    /// 2. [`OpenError::BadRecord`]: a content is no record.
    /// 3. [`OpenError::TooManyOutcomes`]: a value would name more outcomes than it may.
    /// 4. [`OpenError::EpochsSpent`]: the last epoch is 4,294,967,294 or more.
    /// 5. [`OpenError::Full`]: there is no room for the record of the epoch.
    /// 6. [`OpenError::Failed`]: the log failed at that record, which it holds or doesn't.
    ///
    /// [`OpenError::NoMemory`] may come at any place.
    pub fn open(
        alloc: Global,
        log: L,
        site: SiteId,
        catalog: &Catalog,
    ) -> Result<Site<L>, OpenError<L>>
        requires intact { L.model.is_intact log }
        requires up { L.model.is_down log ≡ false }
        requires limit { L.model.limit log ≡ catalog.now.journal }
        requires site { site.0 < catalog.now.sites }
        ensures opened { Opens L.model log site.0 catalog.now result }
        ensures ready { IfOk result (IsReady L.model) }
        ensures intact { IfErr result (λ refused. L.model.is_intact (log_in refused)) }
    {
        let mut log = log;
        let Loaded { left, first } = match load(&mut log, alloc, site, catalog) {
            Ok(loaded) => loaded,
            Err(refusal) => return Err(refusal.with(log)),
        };
        match Site::go_on(alloc, log, left, first) {
            Ok(site) => Ok(site),
            Err(error) => Err(unopened(error)),
        }
    }

    /// The site goes on from what outlived its memory, in the epoch after the last one, which it records. It has no grants and no entries, and it
    /// reads nothing of the log. Takes the time of one append.
    ///
    /// The log is as the site left it: it isn't down, its limit is the catalog's, and it holds the records. It comes back in each refusal, with
    /// what outlived the memory, as that was:
    ///
    /// 1. [`ResumeError::EpochsSpent`]: the last epoch is 4,294,967,294 or more.
    /// 2. [`ResumeError::Full`]: there is no room for the record of the epoch.
    /// 3. [`ResumeError::Failed`]: the log failed at that record, which it holds or doesn't.
    ///
    /// [`ResumeError::NoMemory`] may come in place of the last two.
    pub fn resume(alloc: Global, log: L, left: Recovered) -> Result<Site<L>, ResumeError<L>>
        requires { CanResume L.model log left }
        ensures resumed { Resumes L.model log left false result }
        ensures ready { IfOk result (IsReady L.model) }
        ensures intact { IfErr result (λ refused. L.model.is_intact (log_left refused)) }
    {
        Site::go_on(alloc, log, left, false)
    }

    // Goes on from what is left. It is said whether the log was found empty.
    fn go_on(alloc: Global, log: L, left: Recovered, first: bool) -> Result<Site<L>, ResumeError<L>>
        requires { CanResume L.model log left }
        ensures resumed { Resumes L.model log left first result }
        ensures ready { IfOk result (IsReady L.model) }
        ensures intact { IfErr result (λ refused. L.model.is_intact (log_left refused)) }
    {
        setup_is_in_range(&left.catalog);
        starts_are_sound();
        let mut log = log;
        let mut left = left;
        match left.advance(&mut log, alloc) {
            Ok(Advanced::Done) => {
                let Begun { parts, epoch } = left.begin(alloc);
                Ok(Site {
                    alloc,
                    log,
                    parts,
                    epoch,
                    first,
                    down: false,
                })
            }
            Ok(Advanced::Full(length)) => Err(ResumeError::Full(log, left, length)),
            Ok(Advanced::Spent) => Err(ResumeError::EpochsSpent(log, left)),
            Err(StepError::Fault) => Err(ResumeError::Failed(log, left)),
            Err(StepError::NoMemory) => Err(ResumeError::NoMemory(log, left)),
            // The log isn't down.
            Err(StepError::Down) => unreachable!(),
        }
    }

    /// The site makes a step of the input: it appends the step's record, if there is one, and only then sends and reports. Takes time in
    /// proportion to the items and outcomes that the input touches, and a tick to all that stands and is named.
    ///
    /// A program that is submitted has the plan that `check` answers for it. A message comes from one of the sites, and has a spelling; so
    /// has each that is sent.
    ///
    /// - [`StepError::Fault`]: the log failed at the record, which it holds or doesn't. Nothing is sent. The site is down.
    /// - [`StepError::Down`]: the site is down, and nothing changes.
    /// - [`StepError::NoMemory`]: the site is as if the input hadn't come.
    pub fn step(&mut self, input: &Input) -> Result<Step, StepError>
        requires ready { IsReady L.model self.old }
        requires input { IsInputFor self.old.me self.old.catalog input.now }
        ensures step { Steps L.model self.old self.new self.old.running (input_of input.now) result }
        ensures ready { IsReady L.model self.new }
        ensures spelled { IfOk result (λ step. All (IsSpelledFrom self.old.me) step.sends.items) }
    {
        self.take(input.lent())
    }

    /// The site makes a step of the input: it appends the step's record, if there is one, and only then sends and reports. Takes time in
    /// proportion to the items and outcomes that the input touches, and a tick to all that stands and is named.
    ///
    /// A program that is submitted has the plan that `check` answers for it. A message comes from one of the sites, and has a spelling; so
    /// has each that is sent.
    ///
    /// - [`StepError::Fault`]: the log failed at the record, which it holds or doesn't. Nothing is sent. The site is down.
    /// - [`StepError::Down`]: the site is down, and nothing changes.
    /// - [`StepError::NoMemory`]: the site is as if the input hadn't come.
    pub fn take(&mut self, input: Given<'_>) -> Result<Step, StepError>
        requires ready { IsReady L.model self.old }
        requires input { IsGivenFor self.old.me self.old.catalog input }
        ensures step { Steps L.model self.old self.new self.old.running (input_in input.entry) result }
        ensures ready { IsReady L.model self.new }
        ensures spelled { IfOk result (λ step. All (IsSpelledFrom self.old.me) step.sends.items) }
    {
        if self.down {
            return Err(StepError::Down);
        }
        let made = take(&mut self.log, &mut self.parts, self.alloc, input);
        match made {
            Ok(step) => Ok(step),
            Err(StepError::Fault) => {
                self.parts.forget(self.alloc, self.epoch);
                self.down = true;
                Err(StepError::Fault)
            }
            Err(error) => Err(error),
        }
    }

    /// Whether the site takes the program with this plan: the program can run over the site's catalog, and `check` answers the plan for it, where
    /// it is no query. It is asked of a site that is down too. The cost is that of `pv_check`'s `fits`.
    pub fn fits(&self, program: &Program, plan: &Plan) -> bool
        ensures { (result ≡ true) ↔ (CanRun self.now.catalog program.now × (plan.now.parts.items ≡ plan_of program.now self.now.catalog.items)) }
    {
        has_small_numbers(program) && fits(program, &self.parts.catalog, plan)
    }

    /// What the site shows of its item. Takes time in proportion to the transactions that hold the item, and logarithmic in the locks.
    pub fn read(&self, item: ItemId) -> Shown<'_>
        requires { IsTrue (is_home self.now.catalog self.now.me item.0) }
        ensures { Shows self.now self.now.running item.0 result }
    {
        if self.down {
            return Shown::Down;
        }
        match self.parts.locks.holder(item) {
            Some(txn) => Shown::Locked(txn),
            None => Shown::Cases(self.parts.store.show(item)),
        }
    }

    /// Whether the site works on the transaction: it coordinates it, and hasn't decided.
    pub fn works(&self, txn: TxnId) -> bool
        ensures { result ≡ is_some (entry_in self.now.running txn) }
    {
        self.parts.coord.works(txn)
    }

    /// The grant that was taken from a participant of a transaction on which the site asks for votes.
    pub fn votes_on(&self, txn: TxnId, site: SiteId) -> Option<GrantId>
        ensures { result ≡ grant_taken site.0 (voting_at self.now.running txn) }
    {
        self.parts.coord.votes_on(txn, site)
    }

    /// The grant that the transaction holds here.
    pub fn holds(&self, txn: TxnId) -> Option<GrantId>
        ensures { result ≡ grant_held self.now.running txn }
    {
        self.parts.locks.holds(txn)
    }

    /// Whether the transaction is prepared here, by the records. It is asked of a site that is down too.
    pub fn prepared(&self, txn: TxnId) -> bool
        ensures { result ≡ is_prepared self.now.records txn }
    {
        self.parts.store.prepared(txn)
    }

    /// The transaction's outcome, if a record has it: whether it commits. It is asked of a site that is down too.
    pub fn known(&self, txn: TxnId) -> Option<bool>
        ensures { result ≡ known self.now.records txn }
    {
        self.parts.store.known(txn)
    }

    /// The site's items whose shown values name the transaction, ascending: none where the site is down. It takes no memory.
    pub fn touched(&self, txn: TxnId) -> &[ItemId]
        ensures items { (item : ℕ) → is_one_of item result.now ≡ is_touched self.now txn item }
        ensures ascending { AllPairs (λ (item later : id.ItemId). item.0 < later.0) result.now }
    {
        if self.down {
            return &[];
        }
        self.parts.store.touched(txn)
    }

    /// Whether there is something that the site waits for: a grant or an entry stands, or a value that it shows names an outcome.
    pub fn waits(&self) -> bool
        ensures { (result ≡ false) ↔ IsIdle self.now }
    {
        self.parts.any_stands() || self.parts.store.any()
    }

    /// The log's length in bytes.
    pub fn length(&self) -> u64
        ensures { result ≡ L.model.size self.now.log }
    {
        self.log.length()
    }

    /// The epoch in which the site was opened.
    pub fn epoch(&self) -> u32
        ensures { result ≡ self.now.epoch }
    {
        self.epoch
    }

    /// Whether the opening read no contents: the log was empty. A site that goes on by [`resume`](Site::resume) says that it is not so.
    pub fn first(&self) -> bool
        ensures { result ≡ self.now.first }
    {
        self.first
    }

    /// The log, lent, so that a test can arm what it stands on, or a world can look at it. The other calls but [`close`](Site::close) then need
    /// a log that isn't down, has the same limit and holds the site's records.
    pub fn log(&mut self) -> &mut L
        ensures* lends { sem 𝓛 (Lends (the_row L.row L.Log) L.row self.entry result (with_log self.old)) }
        ensures value { result.now ≡ self.old.log }
    {
        &mut self.log
    }

    /// The log.
    pub fn close(self) -> L
        ensures { result ≡ self.log }
    {
        self.log
    }

    /// The log, and what outlives the site's memory, which is given up: [`resume`](Site::resume) goes on from it without reading the log. Of a site
    /// that is down it says what the records were before the log failed.
    pub fn leave(self) -> (L, Recovered)
        ensures log { result.0 ≡ self.log }
        ensures left { result.1 ≡ record { me = self.me; catalog = self.catalog; records = self.records; surplus = self.surplus } }
    {
        let Site {
            log,
            parts,
            epoch,
            ..
        } = self;
        let SiteParts {
            me,
            catalog,
            store,
            surplus,
            ..
        } = parts;
        (
            log,
            Recovered {
                me,
                catalog,
                store,
                epoch,
                surplus,
            },
        )
    }
}
