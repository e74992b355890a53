// A site of the world, up or down, and what a step, a stop, a start and an armed fault make of it. Only this module and the one on restarts
// know what the logs are that sites stand on; `room.rt` and `world.rt` beside them name the disks, which a run leaves.
ghost use Rattle.std.specs.Prelude.{◌≡◌, ◌<◌, ◌≤◌, ℕ, Bool, List, Option, IfOk, None, Some, is_some};
ghost use Rattle.pv_base.specs.Catalog.{Declared};
ghost use Rattle.pv_format.specs.Checkpoint.{Standing};
ghost use Rattle.pv_format.specs.Record.{Record};
ghost use Rattle.pv_protocol.specs.Committed.{entry_in};
ghost use Rattle.pv_protocol.specs.Records.{is_prepared, known};
ghost use Rattle.pv_protocol.specs.Report.{reading_at};
ghost use Rattle.pv_protocol.specs.Shown.{shown};
ghost use Rattle.pv_protocol.specs.State as model;
ghost use Rattle.pv_protocol.specs.World.{first_site};
ghost use Rattle.pv_site.specs.Asked.{grant_held, grant_taken, voting_at};
ghost use Rattle.pv_site.specs.Recovered.{Remains};
ghost use Rattle.pv_site.specs.Given.{input_in};
ghost use Rattle.pv_world.specs.Cells.{CanFall, CanPack, CanStart, HasFallen, HasPacked, HasStarted, HasStepped, HasStopped, IsUpOver, TakesInput};
ghost use Rattle.pv_world.specs.Disks.{IsLogOfSite};
ghost use Rattle.pv_world.specs.Readings.{OwnsItem, reading_in};
ghost use Rattle.pv_world.specs.Stands.{IsSomeSite, StandsForSite};

use crate::restart::{fallen, first_started, started};
use pv_base::{Catalog, GrantId, ItemId, Mode, NoMemory, SiteId, TxnId};
use pv_ckpt::{CkptError, CkptLog, armed_logs};
use pv_disk::MemDisk;
use pv_site::{Given, Recovered, Shown, Site, Step, StepError};
use std::alloc::Global;
use std::mem::replace;

/// A site of the world.
#[derive(Drop)]
pub(crate) enum Cell {
    /// It is up.
    Up(Site<CkptLog<MemDisk>>),
    /// It is down: its disk, and what outlived its memory.
    Down(MemDisk, Recovered),
    /// It is being stopped or started, or there was no memory for that.
    Vacant,
}

/// What came of an input.
#[derive(Debug, Drop)]
pub(crate) enum Stepped {
    /// The site was down, and took nothing.
    Down,
    /// It has made this step.
    Made(Step),
    /// A write or a sync of its disk fired, and it is down.
    Broke {
        /// Whether that stands for a stop of the site, and not for a fault of the disk.
        stops: bool,
    },
}

/// What came of a checkpoint.
#[derive(Clone, Copy, Debug, PartialEq, Eq)]
pub(crate) enum Checkpointed {
    /// The site was down.
    Down,
    /// Its log is packed.
    Done,
    /// The number in force is the greatest.
    Spent,
    /// A write or a sync of its disk fired, and it is down.
    Broke {
        /// Whether that stands for a stop of the site, and not for a fault of the disk.
        stops: bool,
    },
}

/// What came of a start.
#[derive(Clone, Copy, Debug, PartialEq, Eq)]
pub(crate) enum Start {
    /// The site was up.
    Up,
    /// It has started in this epoch.
    Started(u32),
    /// Its log would have this length with the record of the epoch, above its limit.
    Full(u64),
    /// No epoch is left.
    Spent,
    /// A write or a sync of its disk fired, and it is down.
    Broke {
        /// Whether that stands for a stop of the site, and not for a fault of the disk.
        stops: bool,
    },
}

impl Cell {
    /// The site after its first start, over a disk that was empty. Takes time in proportion to the catalog's items.
    pub(crate) fn open(alloc: Global, site: SiteId, catalog: &Catalog) -> Result<Cell, NoMemory>
        requires { site.0 < catalog.now.sites }
        ensures { IfOk result (λ cell. StandsForSite catalog.now site.0 cell first_site) }
    {
        first_started(alloc, site, catalog)
    }

    /// What the site of this number makes of the input. Where a write or a sync of its disk fires, it reads its records anew if one was added.
    pub(crate) fn step(
        &mut self,
        alloc: Global,
        site: SiteId,
        catalog: &Catalog,
        input: Given<'_>,
    ) -> Result<Stepped, NoMemory>
        requires { TakesInput catalog.now site.0 self.old input }
        ensures { (is : model.Site) → StandsForSite catalog.now site.0 self.old is →
            IfOk result (HasStepped catalog.now site.0 self.old self.new is is.running (input_in input.entry)) }
    {
        armed_logs();
        let Cell::Up(up) = self else {
            return Ok(Stepped::Down);
        };
        let length = up.length();
        match up.take(input) {
            Ok(step) => Ok(Stepped::Made(step)),
            Err(StepError::Fault) => Ok(Stepped::Broke {
                stops: self.fall(length, alloc)?,
            }),
            Err(StepError::NoMemory) => Err(NoMemory),
            // The site is up.
            Err(StepError::Down) => unreachable!(),
        }
    }

    /// The site, if it is up, writes its log anew, packed. Where a write or a sync of its disk fires it is down, with the records that it had. Takes time in
    /// proportion to the log.
    pub(crate) fn checkpoint(&mut self, alloc: Global) -> Result<Checkpointed, NoMemory>
        requires { CanPack self.old }
        ensures { (catalog : Declared) (n : ℕ) (is : model.Site) → StandsForSite catalog n self.old is →
            IfOk result (HasPacked catalog n self.old self.new is is.running) }
    {
        armed_logs();
        let Cell::Up(up) = self else {
            return Ok(Checkpointed::Down);
        };
        let length = up.length();
        match up.log().checkpoint() {
            Ok(()) => Ok(Checkpointed::Done),
            Err(CkptError::Spent) => Ok(Checkpointed::Spent),
            Err(CkptError::Failed) => Ok(Checkpointed::Broke {
                stops: self.fall(length, alloc)?,
            }),
            Err(CkptError::NoMemory) => Err(NoMemory),
            // The site is up.
            Err(CkptError::Down) => unreachable!(),
        }
    }

    // Takes a site from memory whose log failed, and had this length before. Answers whether what fired stands for a stop.
    fn fall(&mut self, length: u64, alloc: Global) -> Result<bool, NoMemory>
        requires { CanFall length self.old }
        ensures { (left : Remains) (added : Option Record) (standing : Standing) (armed : Option model.Arm) (fired : Option Bool) → IsUpOver left added standing armed fired self.old →
            IfOk result (HasFallen left added standing fired self.new) }
    {
        let Cell::Up(up) = replace(self, Cell::Vacant) else {
            // The site is up.
            unreachable!()
        };
        let (log, left) = up.leave();
        let (cell, stops) = fallen(log.close(), length, left, alloc)?;
        *self = cell;
        Ok(stops)
    }

    /// Stops a site that is up, and answers whether it was. What its records say is kept, so that nothing is read.
    pub(crate) fn stop(&mut self) -> bool
        ensures { (catalog : Declared) (n : ℕ) (is : model.Site) → StandsForSite catalog n self.old is →
            HasStopped catalog n self.old self.new is is.running result }
    {
        match replace(self, Cell::Vacant) {
            Cell::Up(up) => {
                let (log, left) = up.leave();
                *self = Cell::Down(log.close(), left);
                true
            }
            down => {
                *self = down;
                false
            }
        }
    }

    /// Starts a site that is down: its log is opened, which reads the length of each record, and it goes on from what it kept. Takes time in
    /// proportion to the records, and where a write or a sync fires, to the log and the catalog.
    pub(crate) fn start(
        &mut self,
        alloc: Global,
        site: SiteId,
        catalog: &Catalog,
    ) -> Result<Start, NoMemory>
        requires replayable { CanStart catalog.now site.0 self.old }
        requires site { site.0 < catalog.now.sites }
        ensures { (is : model.Site) → StandsForSite catalog.now site.0 self.old is →
            IfOk result (HasStarted catalog.now site.0 self.old self.new is is.running) }
    {
        match replace(self, Cell::Vacant) {
            Cell::Down(disk, left) => {
                let (cell, start) = started(disk, left, alloc, site, catalog)?;
                *self = cell;
                Ok(start)
            }
            up => {
                *self = up;
                Ok(Start::Up)
            }
        }
    }

    /// Lets the `k`-th write or sync of the site's disk from now on, counted from 1, fire in place of one armed before. It then leaves what the
    /// mode says, and stands for a stop of the site or for a fault of the disk.
    pub(crate) fn arm(&mut self, k: u32, mode: Mode, stop: bool)
        requires { 1 ≤ k }
        ensures { (catalog : Declared) (n : ℕ) (is : model.Site) → StandsForSite catalog n self.old is →
            StandsForSite catalog n self.new (record is { arm = Some (record { call = k; mode = mode; stops = stop }) }) }
    {
        match self {
            Cell::Up(up) => up.log().disk().arm(k, mode, stop),
            Cell::Down(disk, _) => disk.arm(k, mode, stop),
            Cell::Vacant => {}
        }
    }

    /// Lets no write and no sync of the site's disk fire.
    pub(crate) fn mend(&mut self)
        ensures { (catalog : Declared) (n : ℕ) (is : model.Site) → StandsForSite catalog n self.old is →
            StandsForSite catalog n self.new (record is { arm = None }) }
    {
        match self {
            Cell::Up(up) => up.log().disk().mend(),
            Cell::Down(disk, _) => disk.mend(),
            Cell::Vacant => {}
        }
    }

    /// The site's disk.
    pub(crate) fn close(self) -> MemDisk
        requires { IsSomeSite self }
        ensures { (catalog : Declared) (n : ℕ) (is : model.Site) → StandsForSite catalog n self is → IsLogOfSite is result.image.content }
    {
        match self {
            Cell::Up(up) => up.close().close(),
            Cell::Down(disk, _) => disk,
            // It is neither being stopped nor started.
            Cell::Vacant => unreachable!(),
        }
    }

    /// Whether the site works on the transaction: it coordinates it, and hasn't decided.
    pub(crate) fn works(&self, txn: TxnId) -> bool
        ensures { (catalog : Declared) (n : ℕ) (is : model.Site) → StandsForSite catalog n self.now is → result ≡ is_some (entry_in is.running txn) }
    {
        match self {
            Cell::Up(up) => up.works(txn),
            Cell::Down(..) | Cell::Vacant => false,
        }
    }

    /// The grant that was taken from a participant of a transaction on which the site asks for votes.
    pub(crate) fn votes_on(&self, txn: TxnId, site: SiteId) -> Option<GrantId>
        ensures { (catalog : Declared) (n : ℕ) (is : model.Site) → StandsForSite catalog n self.now is → result ≡ grant_taken site.0 (voting_at is.running txn) }
    {
        match self {
            Cell::Up(up) => up.votes_on(txn, site),
            Cell::Down(..) | Cell::Vacant => None,
        }
    }

    /// The grant that the transaction holds here.
    pub(crate) fn holds(&self, txn: TxnId) -> Option<GrantId>
        ensures { (catalog : Declared) (n : ℕ) (is : model.Site) → StandsForSite catalog n self.now is → result ≡ grant_held is.running txn }
    {
        match self {
            Cell::Up(up) => up.holds(txn),
            Cell::Down(..) | Cell::Vacant => None,
        }
    }

    /// Whether the transaction is prepared here, by the records.
    pub(crate) fn prepared(&self, txn: TxnId) -> bool
        ensures { (catalog : Declared) (n : ℕ) (is : model.Site) → StandsForSite catalog n self.now is → result ≡ is_prepared is.records txn }
    {
        match self {
            Cell::Up(up) => up.prepared(txn),
            Cell::Down(_, left) => left.prepared(txn),
            Cell::Vacant => false,
        }
    }

    /// The transaction's outcome, if the records tell it: whether it commits.
    pub(crate) fn known(&self, txn: TxnId) -> Option<bool>
        ensures { (catalog : Declared) (n : ℕ) (is : model.Site) → StandsForSite catalog n self.now is → result ≡ known is.records txn }
    {
        match self {
            Cell::Up(up) => up.known(txn),
            Cell::Down(_, left) => left.known(txn),
            Cell::Vacant => None,
        }
    }

    /// What the site shows of its item.
    pub(crate) fn read(&self, item: ItemId) -> Shown<'_>
        requires { OwnsItem self.now item.0 }
        ensures { (catalog : Declared) (n : ℕ) (is : model.Site) → StandsForSite catalog n self.now is →
            reading_in n result ≡ reading_at n is.running item.0 (shown catalog is.records item.0) }
    {
        match self {
            Cell::Up(up) => up.read(item),
            Cell::Down(..) | Cell::Vacant => Shown::Down,
        }
    }
}
