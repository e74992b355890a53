// What a program does at each alternative of what it reads.
ghost use Rattle.std.specs.Prelude.{◌≡◌, ◌≤◌, [], length, IsTrue, IfOk};
ghost use Rattle.pv_base.specs.Assignment.{AreAscending};
ghost use Rattle.pv_model.specs.Alternatives.{rows_at};
ghost use Rattle.pv_model.specs.Items.{has_all_items};
ghost use Rattle.pv_split.specs.Columns.{effects_at};

use crate::columns::{columns_of, rows_in};
use pv_ast::{Effect, Program, exec};
use pv_base::{NoMemory, READ_NAMES, TxnId};
use pv_tree::Read;
use std::alloc::Global;

/// What the program does at each assignment of the transactions, each computed once.
pub(crate) fn effects_of(
    alloc: Global,
    program: &Program,
    reads: &[Read],
    txns: &[TxnId],
) -> Result<Vec<Effect>, NoMemory>
    requires items { IsTrue (has_all_items (rows_at reads.now []) program.now) }
    requires ascending { AreAscending txns.now }
    requires few { length txns.now ≤ READ_NAMES }
    ensures { IfOk result (λ effects. effects.items ≡ effects_at program.now reads.now txns.now) }
{
    let columns = columns_of(alloc, reads, txns)?;
    let mut effects = Vec::new(alloc);
    let mut memory = Vec::new(alloc);
    for place in 0..1usize << txns.len() {
        let rows = rows_in(memory, &columns, place)?;
        effects.push(exec(alloc, program, &rows)?)?;
        memory = rows;
    }
    Ok(effects)
}
