// Laws on what a program writes over polyvalues, in terms of a database of one thread. The functions do nothing: each states a law.

ghost use Rattle.std.specs.Prelude.{◌≡◌, ℕ, true, false, List};
ghost use Rattle.pv_base.specs.Polyvalue.{Case};
ghost use Rattle.pv_base.specs.declared.txn.TxnId.{TxnId};
ghost use Rattle.pv_base.specs.declared.reply.Reply.{Reply};
ghost use Rattle.pv_model.specs.Alternatives.{Read, rows_at, IsSplit};
ghost use Rattle.pv_model.specs.Items.{lacks};
ghost use Rattle.pv_model.specs.Meaning.{value_in, exec};
ghost use Rattle.pv_model.specs.ProgramLaws.{assigns};
ghost use Rattle.pv_model.specs.Syntax.{Program};

/// Whatever the outcomes are, what is written of an item that the program assigns is what the program of one thread leaves in it, on the
/// values that are read under these outcomes.
pub fn writes_what_is_left()
    ensures { (program : Program) (reads writes : List Read) (reply : List (Case Reply)) (assignment : List TxnId) (item : ℕ) →
        IsSplit program reads writes reply → assigns program item ≡ true →
        value_in (rows_at writes assignment) item ≡ value_in (exec program (rows_at reads assignment)).rows item }
{}

/// Whatever the outcomes are, an item that the program doesn't assign isn't written, and the program of one thread leaves in it what is read.
pub fn leaves_what_is_not_written()
    ensures { (program : Program) (reads writes : List Read) (reply : List (Case Reply)) (assignment : List TxnId) (item : ℕ) →
        IsSplit program reads writes reply → assigns program item ≡ false →
        (lacks (rows_at writes assignment) item ≡ true)
        × (value_in (exec program (rows_at reads assignment)).rows item ≡ value_in (rows_at reads assignment) item) }
{}
