// Programs over values that name no outcome: they are computed once.
ghost use Rattle.std.specs.Prelude.{◌≡◌, ◌∷◌, [], map, true, IsTrue, IfOk};
ghost use Rattle.std.specs.List.{list_all};
ghost use Rattle.pv_base.specs.declared.limits.TheConstants.{READ_NAMES};
ghost use Rattle.pv_model.specs.Alternatives.{assigned, rows_at};
ghost use Rattle.pv_model.specs.Items.{has_all_items};
ghost use Rattle.pv_split.specs.Splitting.{IsJoinedSplit};
ghost use Rattle.pv_cases.specs.Sure.{is_one_case};
ghost use Rattle.pv_split.specs.Sure.{sure_read};

use crate::Joined;
use pv_ast::{Program, Row, exec};
use pv_base::NoMemory;
use pv_cases::is_sure;
use pv_tree::{Poly, Read};
use std::alloc::Global;

/// Whether no read names an outcome.
pub(crate) fn are_sure(reads: &[Read]) -> bool
    ensures { result ≡ list_all (λ read. is_one_case read.cases) reads.now }
{
    reads.iter().all(|read| is_sure_read(read))
}

// Whether the read names no outcome.
fn is_sure_read(read: &Read) -> bool
    ensures { result ≡ is_one_case read.now.cases }
{
    is_sure(read.value.cases())
}

/// What the program writes and replies over reads that name no outcome.
pub(crate) fn split_sure(
    alloc: Global,
    program: &Program,
    reads: &[Read],
) -> Result<Joined, NoMemory>
    requires sure { list_all (λ read. is_one_case read.cases) reads.now ≡ true }
    requires items { IsTrue (has_all_items (rows_at reads.now []) program.now) }
    ensures { IfOk result (λ joined. IsJoinedSplit READ_NAMES program.now reads.now (joined.writes.items, joined.reply)) }
{
    let rows = rows_of(alloc, reads)?;
    let effect = exec(alloc, program, &rows)?;
    let writes = sure_writes(alloc, program, &effect.rows)?;
    let reply = Poly::sure(alloc, effect.reply)?;
    Ok(Joined { writes, reply })
}

// The rows of the values that the reads have where no transaction commits.
fn rows_of(alloc: Global, reads: &[Read]) -> Result<Vec<Row>, NoMemory>
    ensures { IfOk result (λ rows. rows.items ≡ rows_at reads.now []) }
{
    let mut rows = Vec::with_capacity(alloc, reads.len())?;
    for read in reads {
        rows.push(row_of(read))?;
    }
    Ok(rows)
}

// The row of the value that the read has where no transaction commits.
fn row_of(read: &Read) -> Row
    ensures { result ∷ [] ≡ rows_at (read.now ∷ []) [] }
{
    Row {
        item: read.item,
        value: read.value.at(&[]),
    }
}

// The rows that the program assigns, as what is written whatever the outcomes.
fn sure_writes(alloc: Global, program: &Program, rows: &[Row]) -> Result<Vec<Read>, NoMemory>
    ensures { IfOk result (λ writes. writes.items ≡ map sure_read (assigned program.now rows.now)) }
{
    let mut writes = Vec::with_capacity(alloc, rows.len())?;
    for row in rows {
        if program.assigns(row.item) {
            writes.push(sure_write(alloc, *row)?)?;
        }
    }
    Ok(writes)
}

// The row, as what is written whatever the outcomes.
fn sure_write(alloc: Global, row: Row) -> Result<Read, NoMemory>
    ensures { IfOk result (λ write. write ≡ sure_read row) }
{
    Ok(Read {
        item: row.item,
        value: Poly::sure(alloc, row.value)?,
    })
}
