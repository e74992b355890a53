// Short runs with small limits, found by computing: a refusal of each kind.
#![tactic(auto, unfolding(pv_base::specs::Canonical::canonical_cases, pv_model::specs::Meaning::exec, pv_model::specs::Plan::plan_of, pv_protocol::specs::Attempt::begun, pv_protocol::specs::Coordinate::new_value, pv_protocol::specs::Coordinate::reply_value, pv_protocol::specs::Coordinate::settled_value, pv_protocol::specs::Granted::on_denied, pv_protocol::specs::Granted::on_granted, pv_protocol::specs::Limit::over_limit, pv_protocol::specs::Lock::on_lock, pv_protocol::specs::Lock::on_submit, pv_protocol::specs::Outcome::is_named_here, pv_protocol::specs::Outcome::named_here, pv_protocol::specs::Outcome::on_ask, pv_protocol::specs::Outcome::on_outcome, pv_protocol::specs::Records::journal_bytes, pv_protocol::specs::Report::report_of, pv_protocol::specs::Run::printed, pv_protocol::specs::Run::transitions_of, pv_protocol::specs::Shown::shown_within, pv_protocol::specs::Start::site_start, pv_protocol::specs::Tick::on_tick, pv_protocol::specs::Vote::on_no, pv_protocol::specs::Vote::on_prepare, pv_protocol::specs::Vote::on_yes, pv_protocol::specs::WorldStep::transition_of))]

ghost use Rattle.std.specs.Prelude.{◌≡◌, [], ◌∷◌, All};
ghost use Rattle.pv_base.specs.declared.limits.TheConstants.{MAX_JOURNAL};
ghost use Rattle.pv_law_refusals.specs.Refused.{at_one, contested, contested_lines, forgotten, limited, raise_b, read_certain, read_only, unanswered};
ghost use Rattle.pv_law_world.specs.ExampleLines.{t};
ghost use Rattle.pv_law_step.specs.Examples.{bank};
ghost use Rattle.pv_law_world.specs.Schedules.{pump_all};
ghost use Rattle.pv_protocol.specs.Lines.{Line};
ghost use Rattle.pv_protocol.specs.Run.{printed};
ghost use Rattle.pv_protocol.specs.State as state;
ghost use Rattle.pv_protocol.specs.WellFormed.{IsWellFormed};

/// These events are well formed, over the items of both sites.
pub fn refused_events_are_well_formed()
    ensures contested { All (IsWellFormed bank.catalog) contested }
    ensures read { All (IsWellFormed bank.catalog) read_only }
    ensures certain { All (IsWellFormed bank.catalog) read_certain }
    ensures unanswered { All (IsWellFormed bank.catalog) unanswered }
    ensures forgotten { All (IsWellFormed bank.catalog) forgotten }
    ensures raised { All (IsWellFormed bank.catalog) (raise_b ∷ pump_all ∷ []) }
{}

/// A transaction is refused for each of the six causes.
pub fn each_cause_comes()
    ensures conflict { printed (limited 1 2 MAX_JOURNAL) contested ≡ contested_lines }
    ensures outcome_limit { printed (limited 0 1 MAX_JOURNAL) read_only ≡ Line.txn t ∷ Line.txn at_one ∷ Line.refuse at_one (state.outcome_limit 1) ∷ [] }
    ensures uncertain { printed (limited 1 2 MAX_JOURNAL) read_certain ≡ Line.txn t ∷ Line.txn at_one ∷ Line.refuse at_one (state.uncertain 1 1) ∷ [] }
    ensures expired { printed (limited 1 2 MAX_JOURNAL) unanswered ≡ Line.txn t ∷ Line.refuse t (state.expired 1) ∷ [] }
    ensures grant_lost { printed (limited 1 2 MAX_JOURNAL) forgotten ≡ Line.txn t ∷ Line.stopped 1 ∷ Line.started 1 2 ∷ Line.refuse t (state.grant_lost 1) ∷ [] }
    ensures journal_full { printed (limited 1 2 49) (raise_b ∷ pump_all ∷ []) ≡ Line.txn t ∷ Line.refuse t (state.journal_full 1 50) ∷ [] }
{}
