// Laws on the texts of scripts: each is one schedule, or is malformed at one line for one cause; and it is one live script, or is malformed as one.
ghost use Rattle.std.specs.Prelude.{◌≡◌, ◌⊎◌, ℕ, List};
ghost use Rattle.pv_model.specs.LineCauses.{LineCause};
ghost use Rattle.pv_model.specs.LineForms.{Script};
ghost use Rattle.pv_model.specs.LiveScript.{LiveScript};
ghost use Rattle.pv_model.specs.Events.{Schedule};
ghost use Rattle.pv_model.specs.Schedule.{IsLiveScript, IsMalformed, IsMalformedLiveScript, IsSchedule, IsMalformedSchedule};

/// A text is one schedule at most.
pub fn one_schedule()
    ensures { (text : List ℕ) (schedule other : Schedule) → IsSchedule text schedule → IsSchedule text other → schedule ≡ other }
{}

/// A text is one live script at most.
pub fn one_live_script()
    ensures { (text : List ℕ) (script other : LiveScript) → IsLiveScript text script → IsLiveScript text other → script ≡ other }
{}

/// A text is malformed at one line and for one cause at most, as a script of one kind.
pub fn one_fault()
    ensures { (kind : Script) (text : List ℕ) (number other : ℕ) (cause reason : LineCause) → IsMalformed kind text number cause → IsMalformed kind text other reason →
        (number ≡ other) × (cause ≡ reason) }
{}

/// A schedule isn't malformed.
pub fn no_fault()
    ensures { (text : List ℕ) (schedule : Schedule) (number : ℕ) (cause : LineCause) → IsSchedule text schedule → IsMalformedSchedule text number cause → ⊥ }
{}

/// A live script isn't malformed.
pub fn no_live_fault()
    ensures { (text : List ℕ) (script : LiveScript) (number : ℕ) (cause : LineCause) → IsLiveScript text script → IsMalformedLiveScript text number cause → ⊥ }
{}

/// Each text is a schedule or is malformed.
pub fn some_schedule_or_fault()
    ensures { (text : List ℕ) → ((schedule : Schedule) × IsSchedule text schedule) ⊎ ((number : ℕ) × (cause : LineCause) × IsMalformedSchedule text number cause) }
{}

/// Each text is a live script or is malformed.
pub fn some_live_script_or_fault()
    ensures { (text : List ℕ) → ((script : LiveScript) × IsLiveScript text script) ⊎ ((number : ℕ) × (cause : LineCause) × IsMalformedLiveScript text number cause) }
{}
