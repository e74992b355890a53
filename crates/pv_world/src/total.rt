// What `total` prints: the sums that all items may have together.
ghost use Rattle.std.specs.Prelude.{◌≡◌, ◌≤◌, ◌++◌, [], IfOk, OnOk, map, length};
ghost use Rattle.std.specs.List.{flat_map};
ghost use Rattle.pv_base.specs.Named.{names_of};
ghost use Rattle.pv_base.specs.declared.limits.TheConstants.{HELD_NAMES, MAX_ITEMS};
ghost use Rattle.pv_protocol.specs.Report.{readings, total_from, total_of, total_within};
ghost use Rattle.pv_protocol.specs.World as model;
ghost use Rattle.pv_script.specs.LineView.{line_of};
ghost use Rattle.pv_site.specs.SiteState.{setup_of};
ghost use Rattle.pv_world.specs.Stands.{Stands};
ghost use Rattle.pv_world.specs.Steps.{lines_of};

use crate::World;
use pv_base::{ItemId, NoMemory};
use pv_query::{SumError, sums};
use pv_script::Line;
use pv_site::Shown;
use pv_tree::Poly;
use std::alloc::Global;

impl World {
    /// Appends the sums that all items may have together. In place of them the first item that can't be read is named, or how many outcomes the
    /// values name together, where these are more than may be. Takes time in proportion to the values, and what `sums` takes.
    pub(crate) fn push_total(&self, lines: &mut Vec<Line>) -> Result<(), NoMemory>
        requires stands { (is : model.World) × Stands self.now is }
        ensures { (is : model.World) → Stands self.now is → OnOk result (lines_of lines.new.items ≡ lines_of lines.old.items ++ total_of (setup_of self.now.catalog) is) }
    {
        lines.push(self.total()?)?;
        Ok(())
    }

    // The line of the total.
    fn total(&self) -> Result<Line, NoMemory>
        requires stands { (is : model.World) × Stands self.now is }
        ensures { (is : model.World) → Stands self.now is → IfOk result (λ line. line_of line ≡ total_from HELD_NAMES [] 0 (readings (setup_of self.now.catalog) is)) }
    {
        let mut values = Vec::new(self.alloc);
        for item in 0..self.catalog.len() {
            match self.read(ItemId(item)) {
                Shown::Cases(value) => values.push(value.copy(self.alloc)?)?,
                Shown::Locked(_) => return Ok(Line::TotalLocked(ItemId(item))),
                Shown::Down => return Ok(Line::TotalDown(self.catalog.site_of(ItemId(item)))),
            }
        }
        total_of(self.alloc, &values)
    }
}

// The total of these values.
fn total_of(alloc: Global, values: &[Poly<i64>]) -> Result<Line, NoMemory>
    requires { length values.now ≤ MAX_ITEMS }
    ensures { IfOk result (λ line. line_of line ≡ total_within HELD_NAMES values.now (names_of (flat_map (λ value. value) values.now))) }
{
    match sums(alloc, values) {
        Ok(sums) => Ok(Line::Total(sums)),
        Err(SumError::OutcomeLimit(names)) => Ok(Line::TotalLimit(names)),
        Err(SumError::NoMemory) => Err(NoMemory),
    }
}
