// What each step keeps.
ghost use Rattle.pv_law_acts.specs.Steps.{IsStep};
ghost use Rattle.pv_law_agreement.specs.Falls.{FitsFallBack};
ghost use Rattle.pv_law_agreement.specs.Grounds.{HasGrounds};
ghost use Rattle.pv_law_agreement.specs.Sequence.{IsInSequence};
ghost use Rattle.pv_law_agreement.specs.Serialized.{IsSerialized};
ghost use Rattle.pv_law_agreement.specs.Supported.{IsSupported};
ghost use Rattle.pv_protocol.specs.State.{Setup};
ghost use Rattle.pv_protocol.specs.World.{World, opening};

/// Conflicting writes stay in sequence.
pub fn steps_keep_sequence()
    ensures { (setup : Setup) (world after : World) → IsStep setup world after → HasGrounds setup world → IsInSequence world → IsInSequence after }
{}

/// Values depend on transactions of the order alone.
pub fn steps_keep_support()
    ensures { (setup : Setup) (world after : World) → IsStep setup world after → HasGrounds setup world → IsSupported world → IsSupported after }
{}

/// What is read and written stays what the serial run reads and writes.
pub fn steps_keep_values()
    ensures { (setup : Setup) (world after : World) → IsStep setup world after → HasGrounds setup world → HasGrounds setup after →
        FitsFallBack world after → IsSupported world → IsInSequence world → IsSerialized setup world → IsSerialized setup after }
{}

/// Where a run begins, nothing is promised, taken, reported or asked.
pub fn runs_begin_right()
    ensures sequence { (setup : Setup) → IsInSequence (opening setup) }
    ensures support { (setup : Setup) → IsSupported (opening setup) }
    ensures values { (setup : Setup) → IsSerialized setup (opening setup) }
{}
