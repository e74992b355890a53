// A run in which each law on runs says something, found by computing.
#![tactic(auto, unfolding(pv_base::specs::Canonical::canonical_cases, pv_model::specs::Meaning::exec, pv_model::specs::Plan::plan_of, pv_protocol::specs::Attempt::begun, pv_protocol::specs::Coordinate::new_value, pv_protocol::specs::Coordinate::reply_value, pv_protocol::specs::Granted::on_denied, pv_protocol::specs::Granted::on_granted, pv_protocol::specs::Limit::over_limit, pv_protocol::specs::Lock::on_lock, pv_protocol::specs::Lock::on_submit, pv_protocol::specs::Outcome::is_named_here, pv_protocol::specs::Outcome::named_here, pv_protocol::specs::Outcome::on_ask, pv_protocol::specs::Outcome::on_outcome, pv_protocol::specs::Records::journal_bytes, pv_protocol::specs::Report::report_of, pv_protocol::specs::Run::printed, pv_protocol::specs::Run::transitions_of, pv_protocol::specs::Shown::shown_within, pv_protocol::specs::Start::site_start, pv_protocol::specs::Tick::on_tick, pv_protocol::specs::Vote::on_no, pv_protocol::specs::Vote::on_prepare, pv_protocol::specs::Vote::on_yes, pv_protocol::specs::WorldStep::transition_of))]

ghost use Rattle.std.specs.Prelude.{◌≡◌, [], ◌∷◌, All, false, IsTrue, true};
ghost use Rattle.pv_law_events.specs.Eventful.{after_abort, after_outcome, eventful, eventful_lines, in_doubt, small};
ghost use Rattle.pv_law_world.specs.ExampleLines.{either, t};
ghost use Rattle.pv_protocol.specs.Committed.{Fits, is_readable};
ghost use Rattle.pv_protocol.specs.Outcomes.{Knows};
ghost use Rattle.pv_protocol.specs.Run.{printed};
ghost use Rattle.pv_protocol.specs.Shown.{shown};
ghost use Rattle.pv_protocol.specs.Sound.{IsSetupInRange};
ghost use Rattle.pv_protocol.specs.WellFormed.{IsWellFormed};
ghost use Rattle.pv_protocol.specs.World.{site_at};

/// It is what laws on runs ask for.
pub fn events_are_well_formed()
    ensures events { All (IsWellFormed small.catalog) eventful }
    ensures setup { IsSetupInRange small }
{}

/// A transfer is in doubt at a site that shows both values, commits, and is known to both sites; a site restarts; and of two more
/// transfers the second is refused.
pub fn much_happens()
    ensures { printed small eventful ≡ eventful_lines }
{}

/// While the transfer is in doubt, its item at site 1 can be read, and is what the outcome makes it: that it commits fits, and that it
/// doesn't.
pub fn doubt_is_readable()
    ensures aborted { Fits in_doubt [] }
    ensures committed { Fits in_doubt (t ∷ []) }
    ensures readable { IsTrue (is_readable (site_at in_doubt 1).running 1) }
    ensures shown { shown small.catalog (site_at in_doubt 1).records 1 ≡ either 50 60 }
{}

/// When it has committed, both sites know it.
pub fn two_sites_know()
    ensures first { Knows after_outcome 0 t true }
    ensures second { Knows after_outcome 1 t true }
{}

/// Where one doesn't commit, since its site stopped within a write of the commit record, both sites come to know that too.
pub fn two_sites_know_abort()
    ensures first { Knows after_abort 0 t false }
    ensures second { Knows after_abort 1 t false }
{}
