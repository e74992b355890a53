// What some short runs print, found by computing. The laws on runs would stay true if these printed something else.
#![tactic(auto, unfolding(pv_base::specs::Canonical::canonical_cases, pv_model::specs::Meaning::exec, pv_model::specs::Plan::plan_of, pv_protocol::specs::Attempt::begun, pv_protocol::specs::Coordinate::new_value, pv_protocol::specs::Coordinate::reply_value, pv_protocol::specs::Granted::on_denied, pv_protocol::specs::Granted::on_granted, pv_protocol::specs::Limit::over_limit, pv_protocol::specs::Lock::on_lock, pv_protocol::specs::Lock::on_submit, pv_protocol::specs::Outcome::is_named_here, pv_protocol::specs::Outcome::named_here, pv_protocol::specs::Outcome::on_ask, pv_protocol::specs::Outcome::on_outcome, pv_protocol::specs::Records::journal_bytes, pv_protocol::specs::Report::report_of, pv_protocol::specs::Run::printed, pv_protocol::specs::Run::transitions_of, pv_protocol::specs::Shown::shown_within, pv_protocol::specs::Start::site_start, pv_protocol::specs::Tick::on_tick, pv_protocol::specs::Vote::on_no, pv_protocol::specs::Vote::on_prepare, pv_protocol::specs::Vote::on_yes, pv_protocol::specs::WorldStep::transition_of))]

ghost use Rattle.std.specs.Prelude.{◌≡◌, [], ◌∷◌};
ghost use Rattle.pv_base.specs.declared.reply.Reply.TheVariants.{Nothing};
ghost use Rattle.pv_law_events.specs.Corners.{armed_and_mended, armed_beyond, fault_in_refused_start, fault_in_start, numbered_anew, promised_late, shared_grant};
ghost use Rattle.pv_law_events.specs.Eventful.{small};
ghost use Rattle.pv_law_world.specs.ExampleLines.{both_held, report_lines, sure, t, txn_in, values};
ghost use Rattle.pv_law_world.specs.Schedules.{short_of_room};
ghost use Rattle.pv_protocol.specs.Lines.{Line};
ghost use Rattle.pv_protocol.specs.Run.{printed};

/// After a restart the numbers are those of the next epoch.
pub fn numbers_after_restart()
    ensures { printed small numbered_anew ≡ Line.txn t ∷ Line.stopped 0 ∷ Line.started 0 2 ∷ Line.txn (txn_in 2 0) ∷ [] }
{}

/// A start syncs the journal before it reads it, so a fault comes there also where the start would be refused. Then its append has four calls:
/// the epoch counts from the third on.
pub fn faults_in_starts()
    ensures refused { printed (short_of_room 32) fault_in_refused_start ≡
        Line.stopped 0 ∷ Line.started 0 2 ∷ Line.stopped 0 ∷ Line.stopped 0 ∷ [] }
    ensures third { printed small (fault_in_start 3) ≡ Line.stopped 1 ∷ Line.fault 1 ∷ Line.started 1 2 ∷ [] }
    ensures fourth { printed small (fault_in_start 4) ≡ Line.stopped 1 ∷ Line.fault 1 ∷ Line.started 1 3 ∷ [] }
{}

/// An armed fault counts the calls of each append, and comes in the one that it is armed for; one that is mended doesn't come.
pub fn faults_outlast_appends()
    ensures outlasts { printed small armed_beyond ≡ Line.txn t ∷ Line.stopped 0 ∷ [] }
    ensures mended { printed small armed_and_mended ≡ Line.txn t ∷ Line.commit t (Nothing ∷ []) ∷ [] }
{}

/// A promise renews its grant: it lasts from then on as long as a new one.
pub fn promises_renew_grants()
    ensures { printed small promised_late ≡ Line.txn t ∷ report_lines (t ∷ []) [] (t ∷ []) both_held }
{}

/// A shared lock leaves its item readable.
pub fn shared_is_readable()
    ensures { printed small shared_grant ≡ Line.txn t ∷ report_lines [] [] [] (values (sure 100) (sure 50)) }
{}
