// Laws of pumps.
ghost use Rattle.std.specs.Prelude.{◌≡◌, ◌+◌, ℕ, None, List, All};
ghost use Rattle.pv_law_world.specs.Pumps.{AreMarked, HasFewSites, HasPumpEnd};
ghost use Rattle.pv_model.specs.Events.{Event};
ghost use Rattle.pv_protocol.specs.Pump.{deliveries, enough, next_fresh};
ghost use Rattle.pv_protocol.specs.Run.{run, world_after, worlds_of};
ghost use Rattle.pv_protocol.specs.State.{Setup};
ghost use Rattle.pv_protocol.specs.World.{World, opening};

/// A pump comes to its end: when it has made as many deliveries as it may, no message is fresh, and it would make no others. So it
/// does in every world of a run, also in the last one.
pub fn pump_ends()
    ensures none_left { (setup : Setup) (world : World) → HasFewSites setup.catalog → AreMarked world →
        next_fresh (world_after world (deliveries (enough world) setup world)) ≡ None }
    ensures no_others { (setup : Setup) (world : World) (more : ℕ) → HasFewSites setup.catalog → AreMarked world →
        deliveries (enough world + more) setup world ≡ deliveries (enough world) setup world }
    ensures in_runs { (setup : Setup) (events : List Event) → HasFewSites setup.catalog →
        All (HasPumpEnd setup) (worlds_of (opening setup) (run setup (opening setup) events)) }
{}

/// In every world of a run, also in the last one, each message that was sent is marked as fresh or done.
pub fn messages_are_marked()
    ensures { (setup : Setup) (events : List Event) → All AreMarked (worlds_of (opening setup) (run setup (opening setup) events)) }
{}
