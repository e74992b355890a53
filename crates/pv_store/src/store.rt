// The store of a site.
ghost use Rattle.std.specs.Prelude.{◌≡◌, ◌<◌, ◌++◌, List, [], ◌∷◌, All, IsTrue, IfOk, OnOk, OnErr};
ghost use Rattle.std.specs.List.{AllPairs};
ghost use Rattle.pv_base.specs.declared.limits.TheConstants.{HELD_NAMES};
ghost use Rattle.pv_base.specs.declared.txn.TxnId.{TxnId};
ghost use Rattle.pv_base.specs.Polyvalue.{IsPolyvalue, names, value_at};
ghost use Rattle.pv_format.specs.Record.{epoch_begun, prepared, outcome_known};
ghost use Rattle.pv_model.specs.Alternatives as model;
ghost use Rattle.pv_protocol.specs.Here.{Here};
ghost use Rattle.pv_protocol.specs.Lock.{is_home};
ghost use Rattle.pv_protocol.specs.Outcome.{is_named_here, named_here};
ghost use Rattle.pv_protocol.specs.Records.{choice, is_prepared, is_undecided, known};
ghost use Rattle.pv_protocol.specs.Shown.{shown};
ghost use Rattle.pv_replay.specs.Values.{records_of};

use crate::declared::declared_values;
use crate::dependents::Dependents;
use crate::load::{note_all, values_of};
use crate::named::Named;
use crate::note::note;
use crate::outcomes::Outcomes;
use crate::places::place_all;
use crate::promise::settled;
use crate::promises::Promises;
use crate::settling::settled_values;
use crate::values::{put_values, value_of};
use crate::writes::{copy_reads, values_after};
use crate::{StoreChange, StoreError};
use pv_base::{Catalog, Exact, History, ItemId, NoMemory, Remembered, SiteId, TxnId};
use pv_cases::ordered;
use pv_replay::{Past, Record};
use pv_tree::{Poly, Read};
use std::alloc::Global;
use std::marker::Model;

/// The values of one site's items, as its records show them, with what else the records say: which transactions are prepared, and which
/// outcomes are known.
///
/// A change is planned first, which takes the memory that it needs, and then applied, which can't be refused. Between the two the record
/// can be written. The records themselves aren't kept.
#[derive(Drop)]
pub struct Store {
    /// Where the memory comes from.
    alloc: Global,
    /// The site.
    site: SiteId,
    /// What is declared, for the proof.
    catalog: Remembered<Catalog>,
    /// The records, for the proof.
    records: History<Record>,
    /// The shown value of each item of the site, by the item's number. Items of other sites have none.
    values: Vec<Option<Named>>,
    /// The transactions that are prepared.
    promises: Promises,
    /// The outcomes that are known.
    outcomes: Outcomes,
    /// By transaction whose outcome isn't known, the items whose values name it.
    dependents: Dependents,
}

impl Model for Store {
    ghost use Rattle.pv_replay.specs.Values.{records_of};
    ghost use Rattle.pv_store.specs.Kept.{Kept};

    ghost Value = { Kept };

    ghost use Rattle.pv_store.specs.Held.{AreShown, ArePrepared, AreKnown, ArePlaced, AreTouched};

    ghost view = { λ s. record {
      catalog = s.catalog.value;
      site = s.site.0;
      records = records_of s.records.items;
      room = record { promises = s.promises.room; outcomes = s.outcomes.room; places = s.dependents.places };
    } };

    ghost invariant = { λ s. record {
      values : AreShown s.catalog.value s.site.0 (records_of s.records.items) (records_of s.records.items) s.values.items;
      prepared : ArePrepared s.promises.txns (records_of s.records.items);
      known : AreKnown s.outcomes.outcomes (records_of s.records.items);
      placed : ArePlaced s.catalog.value s.site.0 (records_of s.records.items) (records_of s.records.items) s.dependents.places;
      touched : AreTouched s.values.items s.dependents.touched;
    } };
}

impl Store {
    ghost use Rattle.std.specs.Prelude.{◌↔◌, false};
    ghost use Rattle.pv_store.specs.Kept.{HasSameContents, IsPlannedOn, IsStoreOf, Planned};
    ghost use Rattle.std.specs.Prelude.{◌&&◌, ℕ};
    ghost use Rattle.pv_base.specs.declared.catalog.ItemId as id;
    ghost use Rattle.pv_store.specs.StandingHere.{is_one_of};
    ghost use Rattle.pv_store.specs.Refusals.{AnswersFor, ReportsWide, too_many_in, too_many_with};

    /// The store of a site without records: each of its items is shown as declared. Takes time in proportion to the catalog's items.
    pub fn new(alloc: Global, catalog: &Catalog, site: SiteId) -> Result<Store, NoMemory>
        ensures catalog { IfOk result (λ store. store.catalog ≡ catalog.now) }
        ensures site { IfOk result (λ store. store.site ≡ site.0) }
        ensures records { IfOk result (λ store. store.records ≡ []) }
    {
        Ok(Store {
            alloc,
            site,
            catalog: Remembered::of(catalog),
            records: History::new(),
            values: declared_values(alloc, catalog, site)?,
            promises: Promises::new(alloc),
            outcomes: Outcomes::new(alloc),
            dependents: Dependents::new(alloc),
        })
    }

    /// The store of these records, where it was one without records.
    ///
    /// `TooManyOutcomes` comes exactly where after some prepared record, all outcomes being known that any record has, a value of the site
    /// names more outcomes than it may: at the first such record, for the least such item. Then, and where there is no memory, the store is
    /// as it was. Writes of items that aren't the site's are passed over. Takes time in proportion to the records, the cases in them, and the
    /// catalog's items.
    pub fn load(&mut self, past: &Past) -> Result<(), StoreError>
        requires new { self.old.records ≡ [] }
        ensures loaded { OnOk result (self.new.records ≡ records_of past.now.records.items) }
        ensures same_catalog { self.new.catalog ≡ self.old.catalog }
        ensures same_site { self.new.site ≡ self.old.site }

        ensures answer { AnswersFor (too_many_in self.old.catalog self.old.site (records_of past.now.records.items)) result }
        ensures unchanged { OnErr result (self.new ≡ self.old) }
    {
        let noted = note_all(self.alloc, &past.records)?;
        let loaded = values_of(self.alloc, &noted.outcomes, &self.values, &past.records)?;
        self.values = loaded.values;
        self.dependents = loaded.dependents;
        self.promises = noted.promises;
        self.outcomes = noted.outcomes;
        self.records = noted.records;
        Ok(())
    }

    /// The value that the item is shown as.
    pub fn show(&self, item: ItemId) -> &Poly<i64>
        requires { IsTrue (is_home self.now.catalog self.now.site item.0) }
        ensures { result.now ≡ shown self.now.catalog self.now.records item.0 }
    {
        value_of(&self.values, item).value()
    }

    /// Plans to prepare the transaction: it is to write these values, of ascending items of the site, if it commits.
    ///
    /// `TooManyOutcomes` comes exactly where the value of an item would then name more outcomes than it may; the error has the count of the
    /// least such item. What was planned before can still be applied. Takes time in proportion to the cases of the writes and of the values
    /// that they change, times the names.
    pub fn plan_prepare(&mut self, txn: TxnId, writes: &[Read]) -> Result<StoreChange, StoreError>
        requires here { All (λ write. IsTrue (is_home self.old.catalog self.old.site write.item)) writes.now }
        requires ascending { AllPairs (λ (write later : model.Read). write.item < later.item) writes.now }
        ensures change { IfOk result (λ change. change.appended ≡ prepared txn writes.now) }
        ensures planned { IfOk result (IsPlannedOn self.new) }

        ensures answer { AnswersFor (too_many_with self.old (prepared txn writes.now)) result }
        ensures wide { (here : Here) → IsStoreOf here self.old → here.setup.held_names ≡ HELD_NAMES → ReportsWide here txn writes.now result }
        ensures unchanged { HasSameContents self.old self.new }
        ensures kept { (change : Planned) → IsPlannedOn self.old change → IsPlannedOn self.new change }
    {
        let values = values_after(self.alloc, &self.outcomes, &self.values, txn, writes)?;
        place_all(&mut self.dependents, &values)?;
        self.promises.reserve(1)?;
        Ok(StoreChange {
            record: Record::Prepared {
                txn,
                writes: copy_reads(self.alloc, writes)?,
            },
            values,
        })
    }

    /// Plans to take note of the transaction's outcome. An outcome that is known stays as it is. What was planned before can still be applied.
    /// Takes time in proportion to the cases of the values that name the transaction, times the names.
    pub fn plan_settle(&mut self, txn: TxnId, commits: bool) -> Result<StoreChange, NoMemory>
        ensures change { IfOk result (λ change. change.appended ≡ outcome_known txn commits) }
        ensures planned { IfOk result (IsPlannedOn self.new) }
        ensures unchanged { HasSameContents self.old self.new }
        ensures kept { (change : Planned) → IsPlannedOn self.old change → IsPlannedOn self.new change }
    {
        let values = settled_values(
            self.alloc,
            &self.values,
            self.dependents.touched(txn),
            txn,
            commits,
        )?;
        self.outcomes.reserve(1)?;
        Ok(StoreChange {
            record: Record::Outcome { txn, commits },
            values,
        })
    }

    /// Plans to take note that the site has started in this epoch. That changes nothing that is shown, prepared or known, and takes no memory.
    pub fn plan_epoch(&self, epoch: u32) -> StoreChange
        ensures change { result.appended ≡ epoch_begun epoch }
        ensures planned { IsPlannedOn self.now result }
    {
        StoreChange {
            record: Record::Epoch(epoch),
            values: Vec::new(self.alloc),
        }
    }

    /// Makes the change, which has to be planned on what the store keeps. It then is the store of the records with the new one.
    pub fn apply(&mut self, change: StoreChange)
        requires { IsPlannedOn self.old change }
        ensures { self.new ≡ record self.old { records = self.old.records ++ change.appended ∷ []; room = self.new.room } }
    {
        let StoreChange { record, values } = change;
        put_values(&mut self.values, &mut self.dependents, values);
        note(
            &mut self.promises,
            &mut self.outcomes,
            &mut self.dependents,
            &record,
        );
        self.records = self.records.and(&record);
    }

    /// Whether the transaction is prepared.
    pub fn prepared(&self, txn: TxnId) -> bool
        ensures { result ≡ is_prepared self.now.records txn }
    {
        self.promises.has(txn)
    }

    /// The known outcome of the transaction: whether it commits.
    pub fn known(&self, txn: TxnId) -> Option<bool>
        ensures { result ≡ known self.now.records txn }
    {
        self.outcomes.get(txn)
    }

    /// The value once all outcomes are put in that are known here, so that it names none of them. Where it names none, it is copied as it is.
    /// Takes time in proportion to the cases, times the names.
    pub fn settled<V: Exact>(&self, alloc: Global, value: &Poly<V>) -> Result<Poly<V>, NoMemory>
        ensures value { IfOk result (λ settled. (assignment : List TxnId) → value_at settled assignment ≡ value_at value.now (choice self.now.records assignment)) }
        ensures names { IfOk result (λ settled. (txn : TxnId) → IsTrue (names settled txn) → IsTrue (is_undecided self.now.records txn)) }
        ensures polyvalue { IfOk result (IsPolyvalue HELD_NAMES) }
    {
        settled(alloc, &self.outcomes, value)
    }

    /// The items of the site whose shown values name the transaction, ascending. It takes no memory.
    pub fn touched(&self, txn: TxnId) -> &[ItemId]
        ensures items { (item : ℕ) → is_one_of item result.now ≡ (is_home self.now.catalog self.now.site item && names (shown self.now.catalog self.now.records item) txn) }
        ensures ascending { AllPairs (λ (item later : id.ItemId). item.0 < later.0) result.now }
    {
        self.dependents.touched(txn)
    }

    /// Whether the value of an item of the site names the transaction.
    pub fn named(&self, txn: TxnId) -> bool
        ensures { (here : Here) → IsStoreOf here self.now → result ≡ is_named_here here txn }
    {
        !self.touched(txn).is_empty()
    }

    /// Whether the value of an item of the site names any transaction.
    pub fn any(&self) -> bool
        ensures { (here : Here) → IsStoreOf here self.now → (result ≡ false) ↔ (named_here here ≡ []) }
    {
        for place in 0..self.dependents.len() {
            if self.named(self.dependents.txn_at(place)) {
                return true;
            }
        }
        false
    }

    /// The transactions that values of the site's items name, ascending.
    pub fn mentioned(&self) -> Result<Vec<TxnId>, NoMemory>
        ensures { IfOk result (λ txns. (here : Here) → IsStoreOf here self.now → txns.items ≡ named_here here) }
    {
        let mut txns = Vec::new(self.alloc);
        for place in 0..self.dependents.len() {
            let txn = self.dependents.txn_at(place);
            if self.named(txn) {
                txns.push(txn)?;
            }
        }
        Ok(ordered(txns))
    }
}

// A store may cross threads, which is refused here where one of its fields may not.
fn crosses_threads() {
    sends::<Store>();
}

// What may cross threads fits here, and nothing else.
fn sends<T: Send>() {}
