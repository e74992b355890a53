//! The law of scripts of deciders: whatever is delivered, lost or repeated in one, and in whatever writes and syncs its deciders stop or fail, its run keeps what
//! majority decisions promise. The functions do nothing: each states a law.
#![tactic(auto)]

ghost use Rattle.std.specs.Prelude.{List};
ghost use Rattle.pv_law_decisions.specs.Promises.{KeepsPromises};
ghost use Rattle.pv_law_quorum.specs.Decider.{Setup};
ghost use Rattle.pv_law_quorum.specs.World.{IsFit};
ghost use Rattle.pv_quorum_script.specs.declared.event.QuorumEvent.{QuorumEvent};

/// The run of each script keeps the promises.
pub fn scripts_keep_promises()
    ensures { (setup : Setup) → IsFit setup → (events : List QuorumEvent) → KeepsPromises setup events }
{}
