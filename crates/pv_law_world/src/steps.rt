// Laws of single transitions.
ghost use Rattle.std.specs.Prelude.{◌≡◌, ◌+◌, ◌<◌, ℕ, Some, None, List, [], ◌++◌, length, All, IsSome};
ghost use Rattle.pv_format.specs.Checkpoint.{done};
ghost use Rattle.pv_format.specs.Contents.{greatest_epoch};
ghost use Rattle.pv_format.specs.Message.{Envelope};
ghost use Rattle.pv_format.specs.Record.{Record};
ghost use Rattle.pv_law_step.specs.Appends.{Rises};
ghost use Rattle.pv_law_world.specs.Transitions.{site_of};
ghost use Rattle.pv_model.specs.Events.{Event};
ghost use Rattle.pv_protocol.specs.State.{Setup, Running};
ghost use Rattle.pv_protocol.specs.World.{World, site_at};
ghost use Rattle.pv_protocol.specs.WorldStep.{transition_of};

/// What a report, a total or a list of the messages prints is all that they do.
#[tactic(auto, unfolding(pv_protocol::specs::Attempt::begun, pv_protocol::specs::WorldStep::transition_of))]
pub fn reports_change_nothing()
    ensures report { (setup : Setup) (world : World) → (transition_of setup world Event.report).world ≡ world }
    ensures total { (setup : Setup) (world : World) → (transition_of setup world Event.total).world ≡ world }
    ensures sent { (setup : Setup) (world : World) → (transition_of setup world Event.sent).world ≡ world }
{}

/// An event changes no site but its own.
#[tactic(auto, unfolding(pv_protocol::specs::Attempt::begun, pv_protocol::specs::WorldStep::transition_of))]
pub fn other_sites_stay()
    ensures { (setup : Setup) (world : World) (event : Event) (n : ℕ) → (site_of world event ≡ Some n → ⊥) →
        site_at (transition_of setup world event).world n ≡ site_at world n }
{}

/// In a transition the records of each site only grow.
pub fn transition_adds_records()
    ensures { (setup : Setup) (world : World) (event : Event) (n : ℕ) →
        (more : List Record) × ((site_at (transition_of setup world event).world n).records ≡ (site_at world n).records ++ more) }
{}

/// What is sent in a transition comes from the site that its event is of, which was up.
pub fn down_sites_are_silent()
    ensures { (setup : Setup) (world : World) (event : Event) →
        (more : List Envelope) × ((transition_of setup world event).world.sent ≡ world.sent ++ more)
        × All (λ envelope. (site_of world event ≡ Some envelope.from) × IsSome (site_at world envelope.from).running) more }
{}

/// The numbers that a site gives only rise while it is up, and a start begins the epoch after the last one.
pub fn numbers_rise_in_transitions()
    ensures up { (setup : Setup) (world : World) (event : Event) (n : ℕ) (before after : Running) → (site_at world n).running ≡ Some before →
        (site_at (transition_of setup world event).world n).running ≡ Some after → Rises before after }
    ensures start { (setup : Setup) (world : World) (event : Event) (n : ℕ) (after : Running) → (site_at world n).running ≡ None →
        (site_at (transition_of setup world event).world n).running ≡ Some after → after.epoch ≡ greatest_epoch (site_at world n).records + 1 }
{}

/// After an event `checkpoint` without a line the number in force on the disk of its site is one more, and the gate of the root that isn't in force is 1.
pub fn silent_checkpoints_are_done()
    ensures { (setup : Setup) (world : World) (n : ℕ) → n < length world.sites → (transition_of setup world (Event.checkpoint n)).lines ≡ [] →
        (site_at (transition_of setup world (Event.checkpoint n)).world n).standing ≡ done (site_at world n).standing }
{}
