// What records say with one more.
ghost use Rattle.std.specs.Prelude.{◌≡◌, ◌++◌, ◌∷◌, [], ◌||◌, List};
ghost use Rattle.std.specs.Option.{option_or};
ghost use Rattle.pv_base.specs.declared.txn.TxnId.{TxnId};
ghost use Rattle.pv_format.specs.Record.{Record};
ghost use Rattle.pv_protocol.specs.Records.{is_prepared, known};

/// An outcome that is known stays as it is. Else the new record counts.
pub fn outcomes_stay()
    ensures { (records : List Record) (more : Record) (txn : TxnId) → known (records ++ more ∷ []) txn ≡ option_or (known records txn) (known (more ∷ []) txn) }
{}

/// A transaction is prepared if it was, or is by the new record.
pub fn promises_stay()
    ensures { (records : List Record) (more : Record) (txn : TxnId) → is_prepared (records ++ more ∷ []) txn ≡ is_prepared records txn || is_prepared (more ∷ []) txn }
{}
