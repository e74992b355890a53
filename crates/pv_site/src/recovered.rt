// What outlives a site's memory, and how a site goes on from it, in a new epoch.
ghost use Rattle.std.specs.Prelude.{◌≡◌, [], false, All, IfOk};
ghost use Rattle.pv_format.specs.Contents.{greatest_epoch};
ghost use Rattle.pv_format.specs.Range.{IsRecordInRange};
ghost use Rattle.pv_protocol.specs.Records.{is_prepared, known};
ghost use Rattle.pv_replay.specs.Values.{records_of};
ghost use Rattle.pv_site.specs.SiteParts.{here_of, AreTied};
ghost use Rattle.pv_site.specs.Resumes.{here_begun, Advances, Recovers};

use crate::StepError;
use crate::appending::{Written, write};
use crate::parts::SiteParts;
use crate::surplus::Surplus;
use pv_base::{Catalog, NEVER_GIVEN, NoMemory, SiteId, TxnId};
use pv_coord::Coord;
use pv_disk::Log;
use pv_law_step::no_records_are_narrow;
use pv_locks::Locks;
use pv_replay::Past;
use pv_store::{Store, StoreError};
use std::alloc::Global;
use std::marker::Model;

/// What outlives a site's memory: which site it is, its catalog, and what its records say. A site that is up leaves it
/// ([`Site::leave`](crate::Site::leave)), or it is made of records that were read; and a site goes on from it
/// ([`Site::resume`](crate::Site::resume)).
#[derive(Drop)]
pub struct Recovered {
    /// The site.
    pub(crate) me: SiteId,
    /// The items.
    pub(crate) catalog: Catalog,
    /// What the records say.
    pub(crate) store: Store,
    /// The greatest epoch among them, or 0.
    pub(crate) epoch: u32,
    /// By how many bytes the log is longer than the records make it, for the proof.
    pub(crate) surplus: Surplus,
}

impl Model for Recovered {
    ghost use Rattle.pv_site.specs.Recovered.{Remains};

    ghost Value = { Remains };

    ghost use Rattle.pv_site.specs.RecoveredView.{remains_of, IsRecovered};

    ghost view = { remains_of };

    ghost invariant = { IsRecovered };
}

// What writing the next epoch comes to.
#[derive(Clone, Copy, Debug, PartialEq, Eq)]
pub(crate) enum Advanced {
    /// The log has its record.
    Done,
    /// The log would have this length with the record, above its limit.
    Full(u64),
    /// No epoch is left.
    Spent,
}

// What a site has in memory that has just begun, and in which epoch.
#[derive(Drop)]
pub(crate) struct Begun {
    pub(crate) parts: SiteParts,
    pub(crate) epoch: u32,
}

impl Recovered {
    /// What there is of a site without records. Takes time in proportion to the catalog's items.
    pub fn new(alloc: Global, site: SiteId, catalog: &Catalog) -> Result<Recovered, NoMemory>
        ensures { IfOk result (λ left. left ≡ record { me = site.0; catalog = catalog.now; records = []; surplus = 0 }) }
    {
        no_records_are_narrow();
        Ok(Recovered {
            me: site,
            catalog: catalog.copy()?,
            store: Store::new(alloc, catalog, site)?,
            epoch: 0,
            surplus: Surplus::none(alloc),
        })
    }

    /// What there is of a site with these records, as `replay` answers them with the greatest epoch: what is spelled is in range. `TooManyOutcomes` comes exactly where after
    /// some prepared record, all outcomes being known that any record has, a value of the site names more outcomes than it may: at the first
    /// such record, for the least such item. Its log has these records as they are written. Takes time in proportion to the records, the cases in them, and the catalog's
    /// items.
    pub fn of(
        alloc: Global,
        site: SiteId,
        catalog: &Catalog,
        past: &Past,
    ) -> Result<Recovered, StoreError>
        requires epoch { past.now.epoch ≡ greatest_epoch (records_of past.now.records.items) }
        requires range { All IsRecordInRange (records_of past.now.records.items) }
        ensures { Recovers site.0 catalog.now 0 (records_of past.now.records.items) result }
    {
        Recovered::over(alloc, site, catalog.copy()?, past, Surplus::none(alloc))
    }

    // The same of a log that is by so many bytes longer.
    pub(crate) fn of_longer(
        alloc: Global,
        site: SiteId,
        catalog: &Catalog,
        past: &Past,
        surplus: Surplus,
    ) -> Result<Recovered, StoreError>
        requires epoch { past.now.epoch ≡ greatest_epoch (records_of past.now.records.items) }
        requires range { All IsRecordInRange (records_of past.now.records.items) }
        ensures { Recovers site.0 catalog.now surplus (records_of past.now.records.items) result }
    {
        Recovered::over(alloc, site, catalog.copy()?, past, surplus)
    }

    /// What there is of the same site with these records in place of its own, as [`of`](Recovered::of) makes it, by the catalog that is here, and of a log that is
    /// longer by as many bytes as its own.
    pub fn again(self, alloc: Global, past: &Past) -> Result<Recovered, StoreError>
        requires epoch { past.now.epoch ≡ greatest_epoch (records_of past.now.records.items) }
        requires range { All IsRecordInRange (records_of past.now.records.items) }
        ensures { Recovers self.me self.catalog self.surplus (records_of past.now.records.items) result }
    {
        let Recovered {
            me,
            catalog,
            surplus,
            ..
        } = self;
        Recovered::over(alloc, me, catalog, past, surplus)
    }

    // What there is of a site with these records, by its catalog. Its log is by so many bytes longer than they make it.
    fn over(
        alloc: Global,
        me: SiteId,
        catalog: Catalog,
        past: &Past,
        surplus: Surplus,
    ) -> Result<Recovered, StoreError>
        requires epoch { past.now.epoch ≡ greatest_epoch (records_of past.now.records.items) }
        requires range { All IsRecordInRange (records_of past.now.records.items) }
        ensures { Recovers me.0 catalog surplus (records_of past.now.records.items) result }
    {
        let mut store = Store::new(alloc, &catalog, me)?;
        match store.load(past) {
            Ok(()) => Ok(Recovered {
                me,
                catalog,
                store,
                epoch: past.epoch,
                surplus,
            }),
            Err(error) => Err(error),
        }
    }

    /// Whether the transaction is prepared, by the records.
    pub fn prepared(&self, txn: TxnId) -> bool
        ensures { result ≡ is_prepared self.now.records txn }
    {
        self.store.prepared(txn)
    }

    /// The transaction's outcome, if a record has it: whether it commits.
    pub fn known(&self, txn: TxnId) -> Option<bool>
        ensures { result ≡ known self.now.records txn }
    {
        self.store.known(txn)
    }

    // Records the next epoch, if there is one and the log has room for it.
    pub(crate) fn advance<L: Log>(
        &mut self,
        log: &mut L,
        alloc: Global,
    ) -> Result<Advanced, StepError>
        requires intact { L.model.is_intact log.old }
        requires up { L.model.is_down log.old ≡ false }
        ensures advanced { Advances L.model log.old log.new self.old self.new result }
        ensures intact { L.model.is_intact log.new }
    {
        if self.epoch >= NEVER_GIVEN - 1 {
            return Ok(Advanced::Spent);
        }
        let epoch = self.epoch + 1;
        let change = self.store.plan_epoch(epoch);
        match write(log, alloc, change.record()) {
            Ok(Written::Done) => {
                self.store.apply(change);
                self.epoch = epoch;
                Ok(Advanced::Done)
            }
            Ok(Written::Full(length)) => Ok(Advanced::Full(length)),
            Err(error) => Err(error),
        }
    }

    // What a site has in memory that begins in the last epoch.
    pub(crate) fn begin(self, alloc: Global) -> Begun
        ensures here { here_of result.parts ≡ here_begun self }
        ensures tied { AreTied result.parts }
        ensures locks { result.parts.locks.epoch ≡ result.epoch }
        ensures epoch { greatest_epoch self.records ≡ result.epoch }
    {
        let Recovered {
            me,
            catalog,
            store,
            epoch,
            surplus,
        } = self;
        Begun {
            parts: SiteParts {
                me,
                catalog,
                locks: Locks::new(alloc, epoch, 0),
                coord: Coord::new(alloc, me, epoch, 0),
                store,
                surplus,
            },
            epoch,
        }
    }
}
