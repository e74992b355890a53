// What is promised of the outputs of every script. The function does nothing: it states a law.
ghost use Rattle.pv_outbox_run.specs.Outputs.{KeepsOutputs};

/// Whatever a script does, with stops and faults in whatever writes and syncs:
///
/// - No output is released twice, and one whose record stands is never released again.
/// - An output that is released was the ready one that was held first.
/// - Where it is told that there is none, none is ready; and where none is ready, an outbox that is up tells that.
/// - A `take` that stopped or failed has the record of the ready output or not, and where it has, that output is released nowhere in the run.
/// - What was held and learnt is said to the end.
pub fn scripts_keep_outputs()
    ensures { KeepsOutputs }
{}
