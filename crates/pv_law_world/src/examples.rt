// What some schedules print, found by computing.
#![tactic(auto, unfolding(pv_base::specs::Canonical::canonical_cases, pv_model::specs::Meaning::exec, pv_model::specs::Plan::plan_of, pv_protocol::specs::Attempt::begun, pv_protocol::specs::Coordinate::new_value, pv_protocol::specs::Coordinate::reply_value, pv_protocol::specs::Granted::on_denied, pv_protocol::specs::Granted::on_granted, pv_protocol::specs::Limit::over_limit, pv_protocol::specs::Lock::on_lock, pv_protocol::specs::Lock::on_submit, pv_protocol::specs::Outcome::is_named_here, pv_protocol::specs::Outcome::named_here, pv_protocol::specs::Outcome::on_ask, pv_protocol::specs::Outcome::on_outcome, pv_protocol::specs::Records::journal_bytes, pv_protocol::specs::Report::report_of, pv_protocol::specs::Run::printed, pv_protocol::specs::Run::transitions_of, pv_protocol::specs::Shown::shown_within, pv_protocol::specs::Start::site_start, pv_protocol::specs::Tick::on_tick, pv_protocol::specs::Vote::on_no, pv_protocol::specs::Vote::on_prepare, pv_protocol::specs::Vote::on_yes, pv_protocol::specs::WorldStep::transition_of))]

ghost use Rattle.std.specs.Prelude.{◌≡◌, [], ◌∷◌, ◌++◌, false, true, Some};
ghost use Rattle.pv_base.specs.declared.mode.Mode.TheVariants.{Kept, Lost, Torn};
ghost use Rattle.pv_law_world.specs.ExampleLines.{either, lost_for_good, report_lines, stopped_in_commit, sure, t, u, values};
ghost use Rattle.pv_law_step.specs.Examples.{bank};
ghost use Rattle.pv_law_world.specs.Schedules.{alone, fault_in_prepare, granted_anew, lock_lost, old_prepare, one_more, outcome_asked, outcome_unheard, pump_all, short_of_room, stop_in_commit, transfer, two_more, two_restarts};
ghost use Rattle.pv_model.specs.Events.{report};
ghost use Rattle.pv_base.specs.declared.reply.Reply.TheVariants.{Nothing};
ghost use Rattle.pv_protocol.specs.Limit.{run_within};
ghost use Rattle.pv_protocol.specs.Lines.{Line};
ghost use Rattle.pv_protocol.specs.Run.{printed};
ghost use Rattle.pv_protocol.specs.State as state;
ghost use Rattle.pv_protocol.specs.World.{opening};

/// A transaction at one site commits.
pub fn site_alone_commits()
    ensures { printed (alone 100) (one_more ∷ pump_all ∷ report ∷ []) ≡
        Line.txn t ∷ Line.commit t (Nothing ∷ []) ∷ report_lines (t ∷ []) (t ∷ []) [] (Line.item 0 (sure 101) ∷ []) }
{}

/// A transfer between two sites commits when all is delivered.
pub fn transfer_commits()
    ensures { printed bank (transfer ∷ pump_all ∷ report ∷ []) ≡
        Line.txn t ∷ Line.commit t (Nothing ∷ []) ∷ report_lines (t ∷ []) (t ∷ []) [] (values (sure 90) (sure 60)) }
{}

/// A participant that doesn't hear of the outcome shows both values when its grant ends.
pub fn unheard_outcome_leaves_doubt()
    ensures { printed bank outcome_unheard ≡
        Line.txn t ∷ Line.commit t (Nothing ∷ []) ∷ report_lines (t ∷ []) (t ∷ []) [] (values (sure 90) (either 50 60)) }
{}

/// Of two transactions that change one item, the second is refused for the first.
pub fn conflict_refuses()
    ensures { printed (alone 5) (one_more ∷ two_more ∷ pump_all ∷ report ∷ []) ≡
        Line.txn t ∷ Line.txn u ∷ Line.refuse u (state.conflict 0 0 t) ∷ Line.commit t (Nothing ∷ []) ∷
        report_lines (t ∷ []) (t ∷ []) [] (Line.item 0 (sure 6) ∷ []) }
{}

/// A vote that is asked for under a grant that a restart took is no, also where the transaction has been granted its locks anew.
pub fn restart_loses_grants()
    ensures { printed bank old_prepare ≡
        Line.txn t ∷ Line.stopped 1 ∷ Line.started 1 2 ∷ Line.refuse t (state.grant_lost 1) ∷ report_lines (t ∷ []) [] [] (values (sure 100) (sure 50)) }
{}

/// A stop in the append of the commit record: the transaction has committed exactly where the third or fourth call stops the
/// site and what was written is kept.
pub fn stop_in_commit_record()
    ensures first_kept { printed bank (stop_in_commit 1 Kept ++ outcome_asked) ≡ stopped_in_commit false }
    ensures second_kept { printed bank (stop_in_commit 2 Kept ++ outcome_asked) ≡ stopped_in_commit false }
    ensures third_kept { printed bank (stop_in_commit 3 Kept ++ outcome_asked) ≡ stopped_in_commit true }
    ensures fourth_kept { printed bank (stop_in_commit 4 Kept ++ outcome_asked) ≡ stopped_in_commit true }
    ensures first_lost { printed bank (stop_in_commit 1 Lost ++ outcome_asked) ≡ stopped_in_commit false }
    ensures second_lost { printed bank (stop_in_commit 2 Lost ++ outcome_asked) ≡ stopped_in_commit false }
    ensures third_lost { printed bank (stop_in_commit 3 Lost ++ outcome_asked) ≡ stopped_in_commit false }
    ensures fourth_lost { printed bank (stop_in_commit 4 Lost ++ outcome_asked) ≡ stopped_in_commit false }
    ensures first_torn { printed bank (stop_in_commit 1 Torn ++ outcome_asked) ≡ stopped_in_commit false }
    ensures second_torn { printed bank (stop_in_commit 2 Torn ++ outcome_asked) ≡ stopped_in_commit false }
    ensures third_torn { printed bank (stop_in_commit 3 Torn ++ outcome_asked) ≡ stopped_in_commit false }
    ensures fourth_torn { printed bank (stop_in_commit 4 Torn ++ outcome_asked) ≡ stopped_in_commit false }
{}

/// A fault in the append of a promise: the site starts again with it where the gate was written and kept, and without it else.
pub fn fault_in_promise()
    ensures kept { printed bank (fault_in_prepare Kept) ≡
        Line.txn t ∷ Line.fault 1 ∷ Line.started 1 2 ∷ report_lines (t ∷ []) [] (t ∷ []) (Line.item_locked 0 t ∷ Line.item 1 (either 50 60) ∷ []) }
    ensures lost { printed bank (fault_in_prepare Lost) ≡
        Line.txn t ∷ Line.fault 1 ∷ Line.started 1 2 ∷ report_lines (t ∷ []) [] [] (Line.item_locked 0 t ∷ Line.item 1 (sure 50) ∷ []) }
{}

/// A coordinator gives up at its third tick, for the participant that didn't answer.
pub fn silence_expires()
    ensures { printed bank lock_lost ≡
        Line.txn t ∷ Line.refuse t (state.expired 1) ∷ report_lines [] [] [] (values (sure 100) (sure 50)) }
{}

/// A coordinator without room for the commit record refuses, and then has no room for the outcome either.
pub fn no_room_refuses()
    ensures { printed (short_of_room 64) (one_more ∷ pump_all ∷ report ∷ []) ≡
        Line.txn t ∷ Line.refuse t (state.journal_full 0 66) ∷ Line.full 0 66 ∷ report_lines (t ∷ []) [] [] (Line.item_locked 0 t ∷ []) }
{}

/// A site without room for its new epoch stays down.
pub fn no_room_to_start()
    ensures { printed (short_of_room 32) two_restarts ≡ Line.stopped 0 ∷ Line.started 0 2 ∷ Line.stopped 0 ∷ Line.full 0 39 ∷ [] }
{}

/// The total that passes the limit on sent bytes is that of the first message with which it does; its event prints nothing.
pub fn limit_is_passed()
    ensures { run_within 30 (alone 100) (opening (alone 100)) (one_more ∷ pump_all ∷ report ∷ []) ≡ record { lines = Line.txn t ∷ []; over = Some 54 } }
{}

/// A transaction is open only while the very grant stands that was taken: one that an old request was given anew counts for nothing.
pub fn other_grant_counts_for_nothing()
    ensures { printed bank granted_anew ≡ lost_for_good }
{}
