// What is true of sites over logs in memory. The function does nothing: it states a law.
ghost use Rattle.std.specs.Prelude.{◌≡◌, ℕ, [], Result};
ghost use Rattle.pv_base.specs.Catalog.{Declared};
ghost use Rattle.pv_disk.specs.ListLaws.{list_model};
ghost use Rattle.pv_disk.specs.ListLog.{ListState};
ghost use Rattle.pv_protocol.specs.State as model;
ghost use Rattle.pv_site.specs.Lists.{HasNoFault, IsReadable, log_after};
ghost use Rattle.pv_site.specs.Opens.{Opens};
ghost use Rattle.pv_site.specs.SiteState.{SiteState};
ghost use Rattle.pv_site.specs.Steps.{Steps};
ghost use Rattle.pv_site.specs.declared.error.OpenError.{OpenError};
ghost use Rattle.pv_site.specs.declared.error.StepError.{StepError};
ghost use Rattle.pv_site.specs.declared.input.Step.{Step};

/// Steps and openings leave it as it was which appends of a log in memory are to fail. Where none is to, no step has a fault, and no opening
/// finds a log that fails or isn't one.
pub fn lists_fail_as_planned()
    ensures steps { (old new : SiteState ListState) (input : model.Input) (result : Result Step StepError) → Steps list_model old new old.running input result
        → (new.log.fails ≡ old.log.fails) × (old.log.fails ≡ [] → HasNoFault result) }
    ensures openings { (old : ListState) (me : ℕ) (catalog : Declared) (result : Result (SiteState ListState) (OpenError ListState)) →
        Opens list_model old me catalog result → ((log_after result).fails ≡ old.fails) × (old.fails ≡ [] → IsReadable result) }
{}
