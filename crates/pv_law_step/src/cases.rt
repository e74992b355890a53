// Each step is one of its cases.
ghost use Rattle.std.specs.Prelude.{ℕ, Bool, List};
ghost use Rattle.pv_base.specs.declared.grant.GrantId.{GrantId};
ghost use Rattle.pv_base.specs.declared.txn.TxnId.{TxnId};
ghost use Rattle.pv_base.specs.Want.{Want};
ghost use Rattle.pv_format.specs.Message.{NoCause};
ghost use Rattle.pv_format.specs.Record.{Record};
ghost use Rattle.pv_law_step.specs.GrantCases.{DeniedCase, GrantedCase};
ghost use Rattle.pv_law_step.specs.LockCases.{LockCase, SubmitCase};
ghost use Rattle.pv_law_step.specs.OutcomeCases.{AskCase, OutcomeCase};
ghost use Rattle.pv_law_step.specs.StartCases.{StartCase};
ghost use Rattle.pv_law_step.specs.VoteCases.{NoCase, PrepareCase, YesCase};
ghost use Rattle.pv_model.specs.Alternatives.{Read};
ghost use Rattle.pv_model.specs.Syntax.{Program};
ghost use Rattle.pv_protocol.specs.Granted.{on_denied, on_granted};
ghost use Rattle.pv_protocol.specs.Here.{Here};
ghost use Rattle.pv_protocol.specs.Lock.{on_lock, on_submit};
ghost use Rattle.pv_protocol.specs.Outcome.{on_ask, on_outcome};
ghost use Rattle.pv_protocol.specs.Start.{site_start};
ghost use Rattle.pv_protocol.specs.State.{Setup};
ghost use Rattle.pv_protocol.specs.Vote.{on_no, on_prepare, on_yes};

/// A request gets no number, or begins.
pub fn request_cases()
    ensures { (here : Here) (program : Program) → SubmitCase here program (on_submit here program) }
{}

/// Locks are ignored, also where the transaction's grant is of others; granted again, denied, or granted anew, unless no number is left.
pub fn lock_cases()
    ensures { (here : Here) (from : ℕ) (txn : TxnId) (wants : List Want) → LockCase here from txn wants (on_lock here from txn wants) }
{}

/// A grant is ignored, or taken; with the last one the transaction is refused or at its lock point.
pub fn granted_cases()
    ensures { (here : Here) (from : ℕ) (txn : TxnId) (grant : GrantId) (values : List Read) →
        GrantedCase here from txn grant values (on_granted here from txn grant values) }
{}

/// A denial is ignored, or refuses the transaction.
pub fn denied_cases()
    ensures { (here : Here) (from : ℕ) (txn : TxnId) (item : ℕ) (holder : TxnId) →
        DeniedCase here from txn item holder (on_denied here from txn item holder) }
{}

/// A participant that is asked for its vote takes no notice, votes again, or votes now.
pub fn prepare_cases()
    ensures { (here : Here) (from : ℕ) (txn : TxnId) (grant : GrantId) (writes : List Read) →
        PrepareCase here from txn grant writes (on_prepare here from txn grant writes) }
{}

/// A yes is ignored, or taken; with the last one the transaction commits, unless its record has no room.
pub fn yes_cases()
    ensures { (here : Here) (from : ℕ) (txn : TxnId) → YesCase here from txn (on_yes here from txn) }
{}

/// A no is ignored, or refuses the transaction.
pub fn no_cases()
    ensures { (here : Here) (from : ℕ) (txn : TxnId) (cause : NoCause) → NoCase here from txn cause (on_no here from txn cause) }
{}

/// An outcome is ignored, recorded if there is room, or ends a grant.
pub fn outcome_cases()
    ensures { (here : Here) (from : ℕ) (txn : TxnId) (commits : Bool) → OutcomeCase here from txn commits (on_outcome here from txn commits) }
{}

/// A question for an outcome is answered, unless the site didn't number the transaction or still works on it.
pub fn ask_cases()
    ensures { (here : Here) (from : ℕ) (txn : TxnId) → AskCase here from txn (on_ask here from txn) }
{}

/// A start finds no epoch left or no room, or begins.
pub fn start_cases()
    ensures { (setup : Setup) (surplus : ℕ) (records : List Record) → StartCase setup surplus records (site_start setup surplus records) }
{}
