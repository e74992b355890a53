// Laws of single acts.
ghost use Rattle.pv_law_acts.specs.Acts.{Act};
ghost use Rattle.pv_law_acts.specs.Steps.{IsStep};
ghost use Rattle.pv_protocol.specs.State.{Setup};
ghost use Rattle.pv_protocol.specs.World.{World};

/// What an act leaves was there before, or is new with its cause.
pub fn acts_are_steps()
    ensures { (setup : Setup) (world after : World) → Act setup world after → IsStep setup world after }
{}
