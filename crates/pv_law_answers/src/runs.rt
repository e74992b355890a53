// Laws of every run.
ghost use Rattle.std.specs.Prelude.{◌≡◌, All, Contains, List};
ghost use Rattle.pv_base.specs.declared.reply.Reply.{Reply};
ghost use Rattle.pv_base.specs.declared.txn.TxnId.{TxnId};
ghost use Rattle.pv_law_answers.specs.Settling.{SettlingKeepsValues, WhatFitsFitted};
ghost use Rattle.pv_model.specs.Events.{Event};
ghost use Rattle.pv_protocol.specs.Agreement.{ReportsAgree, WorldsAgree};
ghost use Rattle.pv_protocol.specs.Anywhere.{IsRunWithFaults};
ghost use Rattle.pv_protocol.specs.CommitAnswers.{ArePossible, CommitsAnswer};
ghost use Rattle.pv_protocol.specs.Committed.{home_of};
ghost use Rattle.pv_protocol.specs.Coordinate.{reply_after};
ghost use Rattle.pv_protocol.specs.Run.{run, worlds_of};
ghost use Rattle.pv_protocol.specs.State.{Setup};
ghost use Rattle.pv_protocol.specs.WellFormed.{IsWellFormed};
ghost use Rattle.pv_protocol.specs.World.{opening, site_at, World};
ghost use Rattle.pv_protocol.specs.WorldStep.{Transition};

/// Every world of every run agrees with the serial run, in whatever writes and syncs its sites stop: for each assignment that fits, each
/// readable item has the value that the transactions of the order leave it, run one after another.
pub fn worlds_agree()
    ensures run { (setup : Setup) (events : List Event) → All (IsWellFormed setup.catalog) events →
        WorldsAgree setup (worlds_of (opening setup) (run setup (opening setup) events)) }
    ensures faults { (setup : Setup) (transitions : List Transition) → IsRunWithFaults setup (opening setup) transitions →
        WorldsAgree setup (worlds_of (opening setup) transitions) }
{}

/// So each report comes in a world that agrees.
pub fn reports_agree()
    ensures run { (setup : Setup) (events : List Event) → All (IsWellFormed setup.catalog) events → ReportsAgree setup (run setup (opening setup) events) }
    ensures faults { (setup : Setup) (transitions : List Transition) → IsRunWithFaults setup (opening setup) transitions → ReportsAgree setup transitions }
{}

/// Each commit answers the possible replies, and those of every serial run that fits the world after it are among them.
pub fn commits_answer()
    ensures run { (setup : Setup) (events : List Event) → All (IsWellFormed setup.catalog) events →
        CommitsAnswer setup (opening setup) (run setup (opening setup) events) }
    ensures faults { (setup : Setup) (transitions : List Transition) → IsRunWithFaults setup (opening setup) transitions →
        CommitsAnswer setup (opening setup) transitions }
{}

/// None of the possible replies is one that no outcomes give: each is what the program replies at some assignment, on what was read, with the
/// outcomes that its site knows then.
pub fn each_answer_is_given()
    ensures { (world : World) (transition : Transition) (txn : TxnId) (replies : List Reply) (possible : ArePossible world transition txn replies)
        (reply : Reply) → Contains replies reply →
        (assignment : List TxnId) × (reply_after (site_at transition.world (home_of txn)).records possible.entry assignment ≡ reply) }
{}

/// Settling loses nothing: an outcome that is recorded changes no item's value at an assignment that fits.
pub fn settling_keeps_values()
    ensures run { (setup : Setup) (events : List Event) → All (IsWellFormed setup.catalog) events →
        SettlingKeepsValues setup (opening setup) (run setup (opening setup) events) }
    ensures faults { (setup : Setup) (transitions : List Transition) → IsRunWithFaults setup (opening setup) transitions →
        SettlingKeepsValues setup (opening setup) transitions }
{}

/// What fits a world of a run fits each earlier one, cut to the order that this had: no transaction that couldn't commit any more does
/// later.
pub fn what_fits_fitted()
    ensures run { (setup : Setup) (events : List Event) → All (IsWellFormed setup.catalog) events →
        WhatFitsFitted (worlds_of (opening setup) (run setup (opening setup) events)) }
    ensures faults { (setup : Setup) (transitions : List Transition) → IsRunWithFaults setup (opening setup) transitions →
        WhatFitsFitted (worlds_of (opening setup) transitions) }
{}
