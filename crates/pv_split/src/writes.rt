// What a program writes and replies at all alternatives, as polyvalues.
ghost use Rattle.std.specs.Prelude.{◌≡◌, ◌<◌, ◌≤◌, ◌^◌, List, Some, map, length, All, IsTrue, IfOk};
ghost use Rattle.std.specs.List.{Contains};
ghost use Rattle.std.specs.Option.{option_map};
ghost use Rattle.pv_base.specs.Assignment.{AreAscending, assignments};
ghost use Rattle.pv_base.specs.Polyvalue.{value_at, names, AreValues, IsPolyvalue};
ghost use Rattle.pv_base.specs.declared.txn.TxnId.{TxnId};
ghost use Rattle.pv_model.specs.Alternatives.{all_cases, rows_at, assigned};
ghost use Rattle.pv_model.specs.Meaning.{exec};
ghost use Rattle.pv_split.specs.Columns.{effects_at, values_in_row};

use pv_ast::{Effect, Program, Reply};
use pv_base::{ItemId, NoMemory, READ_NAMES, TxnId};
use pv_tree::{Poly, Read};
use std::alloc::Global;

/// The new values of the items that some assignment of the program names, in the order of the reads, from what the program does at
/// each assignment of the transactions, which the reads name. Takes time in proportion to these items, times the assignments and the transactions.
pub(crate) fn writes_of(
    alloc: Global,
    program: &Program,
    reads: &[Read],
    txns: &[TxnId],
    effects: &[Effect],
) -> Result<Vec<Read>, NoMemory>
    requires ascending { AreAscending txns.now }
    requires few { length txns.now ≤ READ_NAMES }
    requires named { (txn : TxnId) → IsTrue (names (all_cases reads.now) txn) → Contains txns.now txn }
    requires effects { effects.now ≡ effects_at program.now reads.now txns.now }
    ensures written { IfOk result (λ writes. (assignment : List TxnId) →
        rows_at writes.items assignment ≡ assigned program.now (exec program.now (rows_at reads.now assignment)).rows) }
    ensures names { IfOk result (λ writes. All (λ write. (txn : TxnId) → IsTrue (names write.cases txn) → Contains txns.now txn) writes.items) }
    ensures polyvalues { IfOk result (λ writes. All (λ write. IsPolyvalue READ_NAMES write.cases) writes.items) }
{
    let mut writes = Vec::new(alloc);
    for (index, read) in reads.iter().enumerate() {
        if program.assigns(read.item) {
            let write = write_of(alloc, read.item, index, txns, effects)?;
            writes.push(write)?;
        }
    }
    Ok(writes)
}

// The item with the values that the effects leave in the row at this index.
fn write_of(
    alloc: Global,
    item: ItemId,
    index: usize,
    txns: &[TxnId],
    effects: &[Effect],
) -> Result<Read, NoMemory>
    requires ascending { AreAscending txns.now }
    requires few { length txns.now ≤ READ_NAMES }
    requires whole { length effects.now ≡ 2 ^ length txns.now }
    requires row { All (λ effect. index < length effect.rows) effects.now }
    ensures item { IfOk result (λ write. write.item ≡ item.0) }
    ensures values { IfOk result (λ write. AreValues write.cases txns.now (values_in_row index effects.now)) }
    ensures names { IfOk result (λ write. (txn : TxnId) → IsTrue (names write.cases txn) → Contains txns.now txn) }
    ensures polyvalue { IfOk result (λ write. IsPolyvalue READ_NAMES write.cases) }
{
    let values = values_in_row(alloc, index, effects)?;
    let value = Poly::from_table(alloc, txns, &values)?;
    Ok(Read { item, value })
}

// The value that each effect leaves in the row at this index.
fn values_in_row(alloc: Global, index: usize, effects: &[Effect]) -> Result<Vec<i64>, NoMemory>
    requires { All (λ effect. index < length effect.rows) effects.now }
    ensures { IfOk result (λ values. values.items ≡ values_in_row index effects.now) }
{
    let mut values = Vec::new(alloc);
    for effect in effects {
        values.push(effect.rows[index].value)?;
    }
    Ok(values)
}

/// The reply, from what the program does at each assignment of the transactions.
pub(crate) fn reply_over(
    alloc: Global,
    txns: &[TxnId],
    effects: &[Effect],
) -> Result<Poly<Reply>, NoMemory>
    requires ascending { AreAscending txns.now }
    requires few { length txns.now ≤ READ_NAMES }
    requires whole { length effects.now ≡ 2 ^ length txns.now }
    ensures values { IfOk result (λ reply. map (value_at reply) (assignments txns.now)
        ≡ map (λ effect. Some effect.reply) effects.now) }
    ensures names { IfOk result (λ reply. (txn : TxnId) → IsTrue (names reply txn) → Contains txns.now txn) }
    ensures polyvalue { IfOk result (λ reply. IsPolyvalue READ_NAMES reply) }
{
    let replies = replies_of(alloc, effects)?;
    Poly::from_table(alloc, txns, &replies)
}

// The reply of each effect.
fn replies_of(alloc: Global, effects: &[Effect]) -> Result<Vec<Reply>, NoMemory>
    ensures { IfOk result (λ replies. replies.items ≡ map (λ effect. effect.reply) effects.now) }
{
    let mut replies = Vec::new(alloc);
    for effect in effects {
        replies.push(effect.reply)?;
    }
    Ok(replies)
}
