// Laws of what a step leaves alone.
ghost use Rattle.pv_base.specs.declared.txn.TxnId.{TxnId};
ghost use Rattle.pv_law_complete.specs.Frames.{Frames, IsOther};
ghost use Rattle.pv_protocol.specs.Here.{Here};
ghost use Rattle.pv_protocol.specs.State.{Input};
ghost use Rattle.pv_protocol.specs.Step.{step_on};

/// A step leaves alone each transaction that its input isn't about: its grant, its entry and its promise, and it sends nothing of it.
pub fn steps_leave_others()
    ensures { (here : Here) (input : Input) (txn : TxnId) → IsOther here txn input → Frames here txn (step_on here input) }
{}
