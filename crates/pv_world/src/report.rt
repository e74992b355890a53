// What `report` prints: the order, which transactions of it are committed and which are open, and each item.
ghost use Rattle.std.specs.Prelude.{◌≡◌, ◌<◌, ◌++◌, ◌∷◌, [], Some, IfOk, OnOk, map, filter, length, slice_get, is_some};
ghost use Rattle.std.specs.List.{list_all};
ghost use Rattle.std.specs.Option.{option_map};
ghost use Rattle.pv_base.specs.Catalog.{Item};
ghost use Rattle.pv_protocol.specs.Committed.{entry_of, is_bound, is_committed, is_open};
ghost use Rattle.pv_protocol.specs.Outcomes.{HasOneOutcome};
ghost use Rattle.pv_protocol.specs.Report.{item_line, item_lines, reading_of, readings, report_of, txns_in_order};
ghost use Rattle.pv_protocol.specs.World as model;
ghost use Rattle.pv_law_world.specs.Sites.{AreMemoriesInOrder};
ghost use Rattle.pv_script.specs.LineView.{line_of};
ghost use Rattle.pv_site.specs.SiteState.{setup_of};
ghost use Rattle.pv_world.specs.OpenWith.{is_open_with};
ghost use Rattle.pv_world.specs.Readings.{reading_in};
ghost use Rattle.pv_world.specs.Stands.{Stands, grant_of, placed_of};
ghost use Rattle.pv_world.specs.Steps.{lines_of};

use crate::World;
use crate::cell::Cell;
use crate::order::{Placed, TakenGrant};
use pv_base::{ItemId, NoMemory, SiteId, TxnId};
use pv_cases::copy_cases;
use pv_script::Line;
use pv_site::Shown;

impl World {
    /// Appends a report: the transactions in the order of their lock points, those of them that are committed, those that are open, and each
    /// item. Takes time in proportion to what it appends, and, for each transaction of the order, to its participants.
    pub(crate) fn push_report(&self, lines: &mut Vec<Line>) -> Result<(), NoMemory>
        requires stands { (is : model.World) × Stands self.now is }
        ensures { (is : model.World) → Stands self.now is → HasOneOutcome is [] → AreMemoriesInOrder is →
            OnOk result (lines_of lines.new.items ≡ lines_of lines.old.items ++ report_of (setup_of self.now.catalog) is) }
    {
        lines.push(Line::Order(self.ordered()?))?;
        lines.push(Line::Committed(self.committed()?))?;
        lines.push(Line::OpenOnes(self.open_ones()?))?;
        self.push_items(lines)?;
        lines.push(Line::End)?;
        Ok(())
    }

    // The transactions of the order.
    fn ordered(&self) -> Result<Vec<TxnId>, NoMemory>
        ensures { IfOk result (λ txns. txns.items ≡ map (λ placed. placed.txn) self.now.order.items) }
    {
        let mut txns = Vec::new(self.alloc);
        for placed in &self.order {
            txns.push(placed.txn)?;
        }
        Ok(txns)
    }

    // Those that are committed.
    fn committed(&self) -> Result<Vec<TxnId>, NoMemory>
        ensures { (is : model.World) → Stands self.now is → HasOneOutcome is [] →
            IfOk result (λ txns. txns.items ≡ map (λ placed. placed.txn) (filter (λ placed. is_committed is placed.txn) self.now.order.items)) }
    {
        let mut txns = Vec::new(self.alloc);
        for placed in &self.order {
            if self.is_committed(placed.txn) {
                txns.push(placed.txn)?;
            }
        }
        Ok(txns)
    }

    // Those that are open.
    fn open_ones(&self) -> Result<Vec<TxnId>, NoMemory>
        ensures { (is : model.World) → Stands self.now is → HasOneOutcome is [] → AreMemoriesInOrder is →
            IfOk result (λ txns. txns.items ≡ map (λ placed. placed.txn) (filter (λ placed. is_open_with is (placed_of placed)) self.now.order.items)) }
    {
        let mut txns = Vec::new(self.alloc);
        for placed in &self.order {
            if self.is_open(placed) {
                txns.push(placed.txn)?;
            }
        }
        Ok(txns)
    }

    // The site of this number.
    fn cell(&self, site: SiteId) -> Option<&Cell>
        ensures { option_map (λ cell. cell.now) result ≡ slice_get self.now.cells.items site.0 }
    {
        self.cells.get(site.0 as usize)
    }

    // Whether the transaction is committed, by the records of its own site, whether that is up or down.
    fn is_committed(&self, txn: TxnId) -> bool
        ensures { (is : model.World) → Stands self.now is → HasOneOutcome is [] → result ≡ is_committed is txn }
    {
        match self.cell(txn.site) {
            Some(home) => home.known(txn) == Some(true),
            None => false,
        }
    }

    // Whether the transaction is open: it isn't committed, its own site works on it, and each participant is bound by it.
    fn is_open(&self, placed: &Placed) -> bool
        ensures { (is : model.World) → Stands self.now is → HasOneOutcome is [] → AreMemoriesInOrder is → result ≡ is_open_with is (placed_of placed.now) }
    {
        !self.is_committed(placed.txn)
            && self.is_worked_on(placed.txn)
            && self.are_bound(placed.txn, &placed.grants)
    }

    // Whether the transaction's own site works on it.
    fn is_worked_on(&self, txn: TxnId) -> bool
        ensures { (is : model.World) → Stands self.now is → result ≡ is_some (entry_of is txn) }
    {
        match self.cell(txn.site) {
            Some(home) => home.works(txn),
            None => false,
        }
    }

    // Whether each participant is bound by the transaction, which took these grants.
    fn are_bound(&self, txn: TxnId, grants: &[TakenGrant]) -> bool
        ensures { (is : model.World) → Stands self.now is → AreMemoriesInOrder is → result ≡ list_all (is_bound is txn) (map grant_of grants.now) }
    {
        for taken in grants {
            if !self.is_bound(txn, *taken) {
                return false;
            }
        }
        true
    }

    // Whether a participant is bound by the transaction: it has promised to commit it, or the very grant that was taken from it stands.
    fn is_bound(&self, txn: TxnId, taken: TakenGrant) -> bool
        ensures { (is : model.World) → Stands self.now is → AreMemoriesInOrder is → result ≡ is_bound is txn (grant_of taken) }
    {
        match self.cell(taken.site) {
            Some(cell) => cell.prepared(txn) || cell.holds(txn) == Some(taken.grant),
            None => false,
        }
    }

    // Appends a line for each item.
    fn push_items(&self, lines: &mut Vec<Line>) -> Result<(), NoMemory>
        requires stands { (is : model.World) × Stands self.now is }
        ensures { (is : model.World) → Stands self.now is →
            OnOk result (lines_of lines.new.items ≡ lines_of lines.old.items ++ item_lines 0 (readings (setup_of self.now.catalog) is)) }
    {
        for item in 0..self.catalog.len() {
            lines.push(self.item_line(ItemId(item))?)?;
        }
        Ok(())
    }

    // The line of an item.
    fn item_line(&self, item: ItemId) -> Result<Line, NoMemory>
        requires stands { (is : model.World) × Stands self.now is }
        requires item { item.0 < length self.now.catalog.items }
        ensures { (is : model.World) (declared : Item) → Stands self.now is → slice_get self.now.catalog.items item.0 ≡ Some declared →
            IfOk result (λ line. line_of line ≡ item_line item.0 (reading_of (setup_of self.now.catalog) is item.0 declared)) }
    {
        Ok(match self.read(item) {
            Shown::Down => Line::ItemDown(item),
            Shown::Locked(txn) => Line::ItemLocked { item, txn },
            Shown::Cases(value) => Line::Item {
                item,
                cases: copy_cases(self.alloc, value.cases())?,
            },
        })
    }

    /// What an item's site shows of it.
    pub(crate) fn read(&self, item: ItemId) -> Shown<'_>
        requires stands { (is : model.World) × Stands self.now is }
        requires item { item.0 < length self.now.catalog.items }
        ensures { (is : model.World) (declared : Item) → Stands self.now is → slice_get self.now.catalog.items item.0 ≡ Some declared →
            reading_in declared.site result ≡ reading_of (setup_of self.now.catalog) is item.0 declared }
    {
        match self.cell(self.catalog.site_of(item)) {
            Some(cell) => cell.read(item),
            None => Shown::Down,
        }
    }
}
