// Runs that meet the premises, found by computing.
#![tactic(auto, unfolding(pv_base::specs::Canonical::canonical_cases, pv_model::specs::Meaning::exec, pv_model::specs::Plan::plan_of, pv_protocol::specs::Attempt::begun, pv_protocol::specs::Coordinate::new_value, pv_protocol::specs::Coordinate::reply_value, pv_protocol::specs::Granted::on_denied, pv_protocol::specs::Granted::on_granted, pv_protocol::specs::Lock::on_lock, pv_protocol::specs::Lock::on_submit, pv_protocol::specs::Outcome::is_named_here, pv_protocol::specs::Outcome::named_here, pv_protocol::specs::Outcome::on_ask, pv_protocol::specs::Outcome::on_outcome, pv_protocol::specs::Records::journal_bytes, pv_protocol::specs::Run::transitions_of, pv_protocol::specs::Shown::shown_within, pv_protocol::specs::Tick::on_tick, pv_protocol::specs::Vote::on_no, pv_protocol::specs::Vote::on_prepare, pv_protocol::specs::Vote::on_yes, pv_protocol::specs::WorldStep::transition_of))]

ghost use Rattle.std.specs.Prelude.{◌≡◌, [], ◌∷◌, ◌++◌, ◌+◌, All, Contains, false, length};
ghost use Rattle.pv_base.specs.Named.{names_of};
ghost use Rattle.pv_format.specs.Message.{prepare};
ghost use Rattle.pv_format.specs.Record.{prepared};
ghost use Rattle.pv_law_acts.specs.Seen.{HoldsAgeless, records_at, Sent, WorksAgeless};
ghost use Rattle.pv_law_complete.specs.Doubtful.{held, raised, raising, read, second, until_raised, writes};
ghost use Rattle.pv_law_complete.specs.Undelayed.{deliveries, moving, submitted};
ghost use Rattle.pv_law_complete.specs.Undisturbed.{IsUndisturbed};
ghost use Rattle.pv_law_events.specs.Eventful.{small};
ghost use Rattle.pv_law_world.specs.ExampleLines.{t, u};
ghost use Rattle.pv_protocol.specs.Anywhere.{IsRunWithFaults};
ghost use Rattle.pv_protocol.specs.Coordinate.{names_taken};
ghost use Rattle.pv_protocol.specs.Records.{is_prepared};
ghost use Rattle.pv_protocol.specs.Shown.{shown};
ghost use Rattle.pv_protocol.specs.WellFormed.{IsWellFormed};
ghost use Rattle.pv_protocol.specs.World.{opening};

/// A transfer over two sites is submitted and all messages are delivered: nothing comes between.
pub fn transfer_is_undisturbed()
    ensures run { IsRunWithFaults small (opening small) (submitted ∷ deliveries) }
    ensures premises { IsUndisturbed small t moving (opening small) submitted deliveries }
{}

/// An item that is in doubt is read by a second transaction, and its site is asked to vote on what that makes of it: the item would name what
/// was taken, and the transaction itself.
pub fn doubtful_write_is_narrow()
    ensures events { All (IsWellFormed small.catalog) until_raised }
    ensures works { WorksAgeless raised 0 u raising }
    ensures taken { Contains raising.taken read }
    ensures holds { HoldsAgeless raised 1 held }
    ensures unprepared { is_prepared (records_at raised 1) u ≡ false }
    ensures asked { Sent raised 0 1 (prepare u second writes) }
    ensures named { length (names_taken raising) ≡ 1 }
    ensures names { length (names_of (shown small.catalog (records_at raised 1 ++ prepared u writes ∷ []) 1)) ≡ length (names_taken raising) + 1 }
{}
