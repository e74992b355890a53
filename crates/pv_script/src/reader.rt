// The lines of a schedule one after another, wherever they stand.
ghost use Rattle.std.specs.Prelude.{◌≡◌, Some, MatchOption, IfOk, IfErr, IfNone, IfSome, OnOk, OnErr};
ghost use Rattle.pv_model.specs.LineCauses.{at_first, declared_by};
ghost use Rattle.pv_model.specs.LineForms.{scheduled};
ghost use Rattle.pv_model.specs.Schedule.{Declares, IsEvent, with_event};
ghost use Rattle.pv_script.specs.LineFaults.{IsErrorAt};
ghost use Rattle.pv_script.specs.ReaderView.{before_by, IsLimitedReader};
ghost use Rattle.pv_script.specs.ScheduleView.{event_of, HasPlan};

use crate::lines::SignificantLine;
use crate::said::Said;
use crate::schedule::{Event, ScriptError};
use crate::script::Script;
use pv_base::Catalog;
use std::alloc::Global;

/// What the lines of a schedule said so far.
#[derive(Debug, Drop)]
pub struct Reader {
    /// Nothing where no line was read.
    said: Option<Said>,
}

impl Reader {
    /// Nothing is said yet.
    pub fn new() -> Reader
        ensures first { before_by result ≡ at_first scheduled }
        ensures limited { IsLimitedReader result }
    {
        Reader { said: None }
    }

    /// What one more significant line says: an event, or nothing where it declares something. A line that is refused leaves the reader as it was.
    pub fn read(
        &mut self,
        alloc: Global,
        line: SignificantLine,
    ) -> Result<Option<Event>, ScriptError>
        requires { IsLimitedReader self.old }
        ensures declares { IfOk result (λ found. MatchOption found
            (Declares (before_by self.old) line.entry.text.now (before_by self.new))
            (λ event. IsEvent (before_by self.old) line.entry.text.now (event_of event) × (before_by self.new ≡ with_event (before_by self.old)))) }
        ensures limited { OnOk result (IsLimitedReader self.new) }
        ensures plan { IfOk result (λ found. IfSome found (HasPlan (declared_by (before_by self.new)))) }
        ensures fault { IfErr result (IsErrorAt (before_by self.old) line.entry.number line.entry.text.now) }
        ensures unchanged { OnErr result (self.new ≡ self.old) }
    {
        let Some(said) = &mut self.said else {
            return match Said::first(alloc, Script::Scheduled, line.text) {
                Ok(said) => {
                    self.said = Some(said);
                    Ok(None)
                },
                Err(fault) => Err(fault.at(line.number)),
            };
        };
        match said.read(alloc, line.text) {
            Ok(found) => Ok(found),
            Err(fault) => Err(fault.at(line.number)),
        }
    }

    /// What is declared so far. There is no catalog before the count of sites.
    pub fn catalog(&self) -> Option<&Catalog>
        requires { IsLimitedReader self.now }
        ensures some { IfSome result (λ catalog. catalog.now ≡ declared_by (before_by self.now)) }
        ensures none { IfNone result (before_by self.now ≡ at_first scheduled) }
    {
        match &self.said {
            None => None,
            Some(said) => Some(&said.catalog),
        }
    }

    /// What was declared, where the count of sites was.
    pub fn into_catalog(self) -> Option<Catalog>
        requires { IsLimitedReader self }
        ensures some { IfSome result (λ catalog. (catalog ≡ declared_by (before_by self)) × ((before_by self).sites ≡ Some catalog.sites)) }
        ensures none { IfNone result (before_by self ≡ at_first scheduled) }
    {
        match self.said {
            None => None,
            Some(said) => Some(said.catalog),
        }
    }
}
