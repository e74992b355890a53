// Laws of what an event does.
ghost use Rattle.pv_law_acts.specs.Acts.{Acts};
ghost use Rattle.pv_law_world.specs.Sites.{AreEpochsRecorded, AreMemoriesInOrder};
ghost use Rattle.pv_model.specs.Events.{Event};
ghost use Rattle.pv_protocol.specs.Anywhere.{MayFollow};
ghost use Rattle.pv_protocol.specs.State.{Setup};
ghost use Rattle.pv_protocol.specs.WellFormed.{IsWellFormed};
ghost use Rattle.pv_protocol.specs.World.{opening, World};
ghost use Rattle.pv_protocol.specs.WorldStep.{Transition, transition_of};

/// What an event does in a world of a run is some acts, one after another, with armed faults and with faults anywhere. In such a world
/// each site that is up is in the epoch that it recorded last, and its memory stands in order.
pub fn events_are_acts()
    ensures run { (setup : Setup) (world : World) (event : Event) → Acts setup (opening setup) world → AreEpochsRecorded world → AreMemoriesInOrder world →
        IsWellFormed setup.catalog event → Acts setup world (transition_of setup world event).world }
    ensures faults { (setup : Setup) (world : World) (transition : Transition) → Acts setup (opening setup) world → AreEpochsRecorded world →
        AreMemoriesInOrder world → MayFollow setup world transition → Acts setup world transition.world }
{}
