// Laws of the worlds that runs reach. The functions do nothing: each states a law.
ghost use Rattle.pv_protocol.specs.Sound.{IsSetupInRange};
ghost use Rattle.pv_protocol.specs.State.{Setup};
ghost use Rattle.pv_protocol.specs.World as model;
ghost use Rattle.pv_world.specs.Reached.{IsLawful, IsReached};

use pv_law_events::{no_two_outcomes_in_runs, runs_are_reached, starts_find_sound_records};
use pv_law_world::{epochs_are_recorded, memories_are_in_order, runs_stay_in_range};

/// In each world that a run reaches messages and sites are in range, each site can read its records anew, what it has in memory stands in
/// order, and no two sites know different outcomes.
pub(crate) fn reached_worlds_are_lawful()
    ensures { (setup : Setup) (world : model.World) → IsSetupInRange setup → IsReached setup world → IsLawful setup world }
{
    runs_stay_in_range();
    starts_find_sound_records();
    epochs_are_recorded();
    memories_are_in_order();
    no_two_outcomes_in_runs();
    runs_are_reached();
}
