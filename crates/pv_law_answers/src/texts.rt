// What the laws say of the run of every schedule's text: of its reports, its outcomes and its commits.
ghost use Rattle.std.specs.Prelude.{ℕ, List};
ghost use Rattle.pv_law_answers.specs.Reported.{ReportsShowSerialValues};
ghost use Rattle.pv_law_world.specs.Ranges.{with_limits};
ghost use Rattle.pv_model.specs.Events.{Schedule};
ghost use Rattle.pv_model.specs.Schedule.{IsSchedule};
ghost use Rattle.pv_protocol.specs.Agreement.{ReportsAgree};
ghost use Rattle.pv_protocol.specs.CommitAnswers.{CommitsAnswer};
ghost use Rattle.pv_protocol.specs.Outcomes.{OutcomesAgree};
ghost use Rattle.pv_protocol.specs.Run.{run, worlds_of};
ghost use Rattle.pv_protocol.specs.World.{opening};

/// Whatever schedule a text is, each report of its run comes in a world that agrees with the serial run, the cases that it prints have the serial
/// values, and in no world do two sites know different outcomes.
pub fn texts_agree()
    ensures reports { (text : List ℕ) (schedule : Schedule) (read_names held_names : ℕ) → IsSchedule text schedule →
        let setup = with_limits schedule.catalog read_names held_names in ReportsAgree setup (run setup (opening setup) schedule.events) }
    ensures shown { (text : List ℕ) (schedule : Schedule) (read_names held_names : ℕ) → IsSchedule text schedule →
        let setup = with_limits schedule.catalog read_names held_names in ReportsShowSerialValues setup (run setup (opening setup) schedule.events) }
    ensures outcomes { (text : List ℕ) (schedule : Schedule) (read_names held_names : ℕ) → IsSchedule text schedule →
        let setup = with_limits schedule.catalog read_names held_names in OutcomesAgree (worlds_of (opening setup) (run setup (opening setup) schedule.events)) }
{}

/// And each of its commits answers the possible replies, those of every serial run that fits among them.
pub fn texts_answer()
    ensures { (text : List ℕ) (schedule : Schedule) (read_names held_names : ℕ) → IsSchedule text schedule →
        let setup = with_limits schedule.catalog read_names held_names in CommitsAnswer setup (opening setup) (run setup (opening setup) schedule.events) }
{}
