// What the laws of agreement, of answers and of settling say in the eventful run, found by computing.
#![tactic(auto, unfolding(pv_base::specs::Canonical::canonical_cases, pv_model::specs::Meaning::exec, pv_model::specs::Plan::plan_of, pv_protocol::specs::Attempt::begun, pv_protocol::specs::Coordinate::new_value, pv_protocol::specs::Coordinate::reply_value, pv_protocol::specs::Granted::on_denied, pv_protocol::specs::Granted::on_granted, pv_protocol::specs::Lock::on_lock, pv_protocol::specs::Lock::on_submit, pv_protocol::specs::Outcome::is_named_here, pv_protocol::specs::Outcome::named_here, pv_protocol::specs::Outcome::on_ask, pv_protocol::specs::Outcome::on_outcome, pv_protocol::specs::Records::journal_bytes, pv_protocol::specs::Run::printed, pv_protocol::specs::Run::transitions_of, pv_protocol::specs::Shown::shown_within, pv_protocol::specs::Start::site_start, pv_protocol::specs::Tick::on_tick, pv_protocol::specs::Vote::on_no, pv_protocol::specs::Vote::on_prepare, pv_protocol::specs::Vote::on_yes, pv_protocol::specs::WorldStep::transition_of))]

ghost use Rattle.std.specs.Prelude.{◌≡◌, ◌∷◌, [], All, IsTrue, None, Some, pos, true};
ghost use Rattle.pv_law_acts.specs.Seen.{records_at};
ghost use Rattle.pv_law_answers.specs.Example.{after, asker, strict, until_asked, until_read, until_commit, until_restarted, until_settled};
ghost use Rattle.pv_law_events.specs.Eventful.{in_doubt, small};
ghost use Rattle.pv_law_world.specs.ExampleLines.{t};
ghost use Rattle.pv_base.specs.declared.reply.Reply.TheVariants.{Value};
ghost use Rattle.pv_model.specs.Meaning.{value_in};
ghost use Rattle.pv_model.specs.Serial.{declared_rows, serial_reply};
ghost use Rattle.pv_protocol.specs.Committed.{Fits, is_committed, IsOpen, programs_of, serial_rows};
ghost use Rattle.pv_protocol.specs.Lines.{Line};
ghost use Rattle.pv_protocol.specs.Outcomes.{Knows};
ghost use Rattle.pv_protocol.specs.Records.{known};
ghost use Rattle.pv_protocol.specs.Run.{printed};
ghost use Rattle.pv_protocol.specs.Shown.{item_value};
ghost use Rattle.pv_protocol.specs.State as state;
ghost use Rattle.pv_protocol.specs.WellFormed.{IsWellFormed};

/// While the transfer is open, and site 1's item can be read, that has one value where the transfer commits and another where it doesn't, as the
/// serial run has.
pub fn doubt_has_two_values()
    ensures is_open { IsOpen in_doubt t }
    ensures without { item_value small.catalog (records_at in_doubt 1) 1 [] ≡ pos 50 }
    ensures with { item_value small.catalog (records_at in_doubt 1) 1 (t ∷ []) ≡ pos 60 }
    ensures serial_without { value_in (serial_rows small in_doubt []) 1 ≡ pos 50 }
    ensures serial_with { value_in (serial_rows small in_doubt (t ∷ [])) 1 ≡ pos 60 }
{}

/// Then it commits, and site 1 records the outcome: two sites know it, and still do after a restart.
pub fn outcome_settles_the_doubt()
    ensures commits { IsTrue (is_committed (after until_commit) t) }
    ensures unheard { known (records_at (after until_commit) 1) t ≡ None }
    ensures heard { known (records_at (after until_settled) 1) t ≡ Some true }
    ensures here { Knows (after until_restarted) 0 t true }
    ensures there { Knows (after until_restarted) 1 t true }
    ensures value { item_value small.catalog (records_at (after until_restarted) 1) 1 [] ≡ pos 60 }
{}

/// A transaction that reads the item then commits with both answers, and each is that of one of the serial runs that fit.
pub fn doubt_gives_two_answers()
    ensures events { All (IsWellFormed small.catalog) until_asked }
    ensures fits_without { Fits (after until_asked) (asker ∷ []) }
    ensures fits_with { Fits (after until_asked) (t ∷ asker ∷ []) }
    ensures printed { printed small until_asked ≡ Line.txn t ∷ Line.txn asker ∷ Line.commit asker (Value (pos 50) ∷ Value (pos 60) ∷ []) ∷ [] }
    ensures without { serial_reply (declared_rows small.catalog) (programs_of (after until_asked).order) (asker ∷ []) asker ≡ Some (Value (pos 50)) }
    ensures with { serial_reply (declared_rows small.catalog) (programs_of (after until_asked).order) (t ∷ asker ∷ []) asker ≡ Some (Value (pos 60)) }
{}

/// Where it may read nothing that is open, it is refused for that.
pub fn wide_reading_is_refused()
    ensures { printed strict until_read ≡ Line.txn t ∷ Line.txn asker ∷ Line.refuse asker (state.outcome_limit 1) ∷ [] }
{}
