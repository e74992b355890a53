// What crashes leave of the steps of a site, over any log. The function does nothing: it states a law.
ghost use Rattle.std.specs.Prelude.{◌≡◌, ℕ, List, [], ◌∷◌, ◌++◌, Option, Some, Result, Ok};
ghost use Rattle.pv_base.specs.Catalog.{Declared};
ghost use Rattle.pv_format.specs.Record.{Record, epoch_begun};
ghost use Rattle.pv_disk_model.specs.Size.{Contents};
ghost use Rattle.pv_protocol.specs.State as model;
ghost use Rattle.pv_site.specs.Crashes.{AreBeforeOrAfter, AreContentsOf, IsUp};
ghost use Rattle.pv_site.specs.Opens.{Opens};
ghost use Rattle.pv_site.specs.SiteState.{SiteState};
ghost use Rattle.pv_site.specs.Steps.{Steps};
ghost use Rattle.pv_site.specs.declared.error.StepError.{StepError};
ghost use Rattle.pv_site.specs.declared.input.Step.{Step};

use pv_disk::Log;

/// Whatever a crash leaves at any moment of a step, where it is known what the log holds, a site that is opened on it goes on from the records
/// before the step or from these with the step's one, and from all of them after an answer `Ok`. To these it adds no record but that of its
/// epoch (write-ahead logging: Mohan et al., 1992).
pub fn crashes_leave_before_or_after<L: Log>()
    ensures steps { (old new : SiteState L) (running : model.Running) (input : model.Input) (result : Result Step StepError) (left : Option Contents) →
        IsUp L.model old running → Steps L.model old new (Some running) input result → L.model.left_since new.log (L.model.moment old.log) left
        → AreBeforeOrAfter old running input left }
    ensures done { (old new : SiteState L) (running : model.Running) (input : model.Input) (answer : Step) (left : Option Contents) →
        IsUp L.model old running → Steps L.model old new (Some running) input (Ok answer) → L.model.may_leave new.log left → AreContentsOf new.records left }
    ensures openings { (log : L) (me : ℕ) (catalog : Declared) (records : List Record) (site : SiteState L) →
        AreContentsOf records (L.model.contents log) → Opens L.model log me catalog (Ok site) → site.records ≡ records ++ epoch_begun site.epoch ∷ [] }
{}
