// What a site finds of a transaction.
ghost use Rattle.std.specs.Prelude.{◌≡◌, List, None, Some, if◌then◌else◌};
ghost use Rattle.pv_base.specs.Assignment.{is_same_txn};
ghost use Rattle.pv_base.specs.declared.txn.TxnId.{TxnId};
ghost use Rattle.pv_protocol.specs.Here.{Here};
ghost use Rattle.pv_protocol.specs.Keyed.{of_txn, with_one, without};
ghost use Rattle.pv_protocol.specs.Sound.{IsInOrder};
ghost use Rattle.pv_protocol.specs.State.{Input};
ghost use Rattle.pv_protocol.specs.Step.{step_on};

/// What is put in is found for its transaction, and for others what was there.
pub fn one_more_is_found<X>()
    ensures { (txn_of : X → TxnId) (txn : TxnId) (x : X) (list : List X) →
        of_txn txn_of txn (with_one txn_of x list) ≡ (if is_same_txn txn (txn_of x) then Some x else of_txn txn_of txn list) }
{}

/// What is taken out isn't found, and for others there is what was there.
pub fn one_less_is_gone<X>()
    ensures { (txn_of : X → TxnId) (txn other : TxnId) (list : List X) →
        of_txn txn_of txn (without txn_of other list) ≡ (if is_same_txn txn other then None else of_txn txn_of txn list) }
{}

/// Grants and entries stay in the order of their transactions, one of each transaction at most.
pub fn memory_stays_in_order()
    ensures { (here : Here) (input : Input) → IsInOrder here.running → IsInOrder (step_on here input).running }
{}
