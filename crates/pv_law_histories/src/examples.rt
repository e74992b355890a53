// Some histories that fit together, and their merges, found by computing.
#![tactic(auto, unfolding(pv_base::specs::Canonical::canonical_cases, pv_model::specs::Meaning::exec, pv_model::specs::Plan::plan_of, pv_protocol::specs::Coordinate::new_value, pv_protocol::specs::Coordinate::reply_value, pv_protocol::specs::Granted::on_granted, pv_protocol::specs::Lock::on_lock, pv_protocol::specs::Lock::on_submit, pv_protocol::specs::Records::journal_bytes, pv_protocol::specs::Shown::shown_within, pv_protocol::specs::Tick::on_tick, pv_protocol::specs::Vote::on_prepare, pv_protocol::specs::Vote::on_yes))]

ghost use Rattle.std.specs.Prelude.{◌≡◌, [], ◌∷◌, false};
ghost use Rattle.pv_base.specs.declared.mode.Mode.TheVariants.{Lost};
ghost use Rattle.pv_base.specs.declared.reply.Reply.TheVariants.{Nothing};
ghost use Rattle.pv_law_histories.specs.Examples.{served, failed, first_of_two, second_of_two};
ghost use Rattle.pv_law_histories.specs.Fitting.{FitTogether};
ghost use Rattle.pv_law_histories.specs.Merge.{events_of_merge, lines_of_merge, merge};
ghost use Rattle.pv_law_histories.specs.Posting.{PassMessages};
ghost use Rattle.pv_law_step.specs.Examples.{bank, txn_at};
ghost use Rattle.pv_law_world.specs.Schedules.{alone, one_more, transfer};
ghost use Rattle.pv_model.specs.Events.{deliver, arm, tick};
ghost use Rattle.pv_protocol.specs.Lines.{Line};

/// The history of one site that serves one request, in which the site takes its own messages one after another.
pub fn one_request_is_served()
    ensures fits { FitTogether (alone 100) (served ∷ []) }
    ensures events { events_of_merge (merge (served ∷ [])) ≡ one_more ∷ deliver 0 ∷ deliver 1 ∷ deliver 2 ∷ deliver 3 ∷ [] }
    ensures lines { lines_of_merge (merge (served ∷ [])) ≡ Line.txn (txn_at 0 0) ∷ Line.commit (txn_at 0 0) (Nothing ∷ []) ∷ [] }
{}

/// The same where the site's disk fails when it records its promise: the fault is armed before the message is delivered.
pub fn fault_takes_a_site_down()
    ensures fits { FitTogether (alone 100) (failed ∷ []) }
    ensures events { events_of_merge (merge (failed ∷ [])) ≡ one_more ∷ deliver 0 ∷ deliver 1 ∷ arm 0 1 Lost false ∷ deliver 2 ∷ tick 0 ∷ [] }
    ensures lines { lines_of_merge (merge (failed ∷ [])) ≡ Line.txn (txn_at 0 0) ∷ Line.fault 0 ∷ Line.down 0 ∷ [] }
{}

/// Of two sites that step at one stamp the one with the lesser number comes first, and its message has the lesser number.
pub fn two_sites_step_at_one_stamp()
    ensures passes { PassMessages bank (first_of_two ∷ second_of_two ∷ []) }
    ensures fits { FitTogether bank (first_of_two ∷ second_of_two ∷ []) }
    ensures events { events_of_merge (merge (first_of_two ∷ second_of_two ∷ [])) ≡ transfer ∷ deliver 0 ∷ deliver 1 ∷ deliver 3 ∷ [] }
    ensures lines { lines_of_merge (merge (first_of_two ∷ second_of_two ∷ [])) ≡ Line.txn (txn_at 0 0) ∷ [] }
{}
