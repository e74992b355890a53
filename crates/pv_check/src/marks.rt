// Which items a program names and which it assigns, found in one reading of it.
ghost use Rattle.std.specs.Prelude.{◌≡◌, ◌<◌, ◌≤◌, ℕ, List, length, IsTrue, IfOk};
ghost use Rattle.pv_model.specs.Syntax as model;
ghost use Rattle.pv_model.specs.Check.{names_item, AreItems};
ghost use Rattle.pv_ast.specs.ExprView.{expr_of};
ghost use Rattle.pv_ast.specs.ProgramView.{followed_by};
ghost use Rattle.pv_check.specs.Wants.{AreWants};
ghost use Rattle.pv_check.specs.Marks.{AreMarks, read_of, with_read, with_assigned, marks_after_expr, marks_after};

use pv_ast::{Expr, Program, Stmt};
use pv_base::{Catalog, ItemId, NoMemory, Want};
use std::alloc::Global;

/// How a program uses an item, as far as the program was read.
#[derive(Clone, Copy, Debug, PartialEq, Eq)]
pub(crate) enum Mark {
    /// The program doesn't name the item.
    Unnamed,
    /// It names the item, and no assignment does.
    Shared,
    /// Some assignment names the item.
    Exclusive,
}

impl Mark {
    // The mark of an item that is read once more.
    fn read(self) -> Mark
        ensures { result ≡ read_of self }
    {
        match self {
            Mark::Unnamed | Mark::Shared => Mark::Shared,
            Mark::Exclusive => Mark::Exclusive,
        }
    }
}

/// How many marks a table has: one for each item that a catalog may hold.
pub(crate) const ROOM: usize = pv_base::MAX_ITEMS;

/// How a program uses each item, by the item's number.
///
/// The table is of one size, whatever the catalog holds. It takes no memory from an allocator, so a program is refused for
/// what it is also where there is no memory.
pub(crate) type Marks = [Mark; ROOM];

/// How the program uses each item.
pub(crate) fn marks_of(program: &Program) -> Marks
    requires { (n : ℕ) → IsTrue (names_item program.now n) → n < ROOM }
    ensures { AreMarks program.now result }
{
    let mut marks = [Mark::Unnamed; ROOM];
    mark_program(&mut marks, program);
    marks
}

/// The marks of the catalog's items, which are all that a program over the catalog names.
pub(crate) fn marks_within<'a>(marks: &'a Marks, catalog: &Catalog) -> &'a [Mark]
    ensures few { length result.now ≤ ROOM }
    ensures marks { (program : model.Program) → AreMarks program marks.now →
        ((n : ℕ) → IsTrue (names_item program n) → n < length catalog.now.items) → AreMarks program result.now }
{
    &marks[..catalog.len() as usize]
}

/// How many items the program names.
#[tactic(auto, unfolding(crate::specs::Wants::wants_among))]
pub(crate) fn count_named(marks: &[Mark]) -> u32
    requires few { length marks.now ≤ ROOM }
    ensures { (program : model.Program) → AreMarks program marks.now → (items : List ℕ) → AreItems program items → result ≡ length items }
{
    let mut count = 0;
    for mark in marks {
        if *mark != Mark::Unnamed {
            count += 1;
        }
    }
    count
}

/// What the program wants of each item that it names, ascending by item.
#[tactic(auto, unfolding(crate::specs::Wants::wants_among))]
pub(crate) fn wants_of(alloc: Global, marks: &[Mark]) -> Result<Vec<Want>, NoMemory>
    requires few { length marks.now ≤ ROOM }
    ensures { IfOk result (λ wants. (program : model.Program) → AreMarks program marks.now → AreWants program wants.items) }
{
    let mut wants = Vec::new(alloc);
    for (number, mark) in marks.iter().enumerate() {
        if *mark != Mark::Unnamed {
            let item = ItemId(number as u32);
            let exclusive = *mark == Mark::Exclusive;
            wants.push(Want { item, exclusive })?;
        }
    }
    Ok(wants)
}

// Marks what the program names.
#[cycle(mark)]
fn mark_program(marks: &mut [Mark], program: &Program)
    ensures { marks.new ≡ marks_after program.now marks.old }
{
    for stmt in &program.stmts {
        mark_stmt(marks, stmt);
    }
}

// Marks what the statement names.
#[cycle(mark)]
fn mark_stmt(marks: &mut [Mark], stmt: &Stmt)
    ensures { (next : model.Program) → marks_after (followed_by stmt.now next) marks.old ≡ marks_after next marks.new }
{
    match stmt {
        Stmt::Assign { item, value } => {
            mark_expr(marks, value);
            mark_assigned(marks, *item);
        }
        Stmt::Require(test) => mark_expr(marks, test),
        Stmt::Certain(item) => mark_read(marks, *item),
        Stmt::Return(value) => mark_expr(marks, value),
        Stmt::If { test, body, other } => {
            mark_expr(marks, test);
            mark_program(marks, body);
            if let Some(other) = other {
                mark_program(marks, other);
            }
        }
    }
}

// Marks what the expression names.
fn mark_expr(marks: &mut [Mark], expr: &Expr)
    ensures { marks.new ≡ marks_after_expr (expr_of expr.now) marks.old }
{
    match expr {
        Expr::Number(_) => {}
        Expr::Item(item) => mark_read(marks, *item),
        Expr::Minus(inner) => mark_expr(marks, &inner.expr),
        Expr::Not(inner) => mark_expr(marks, &inner.expr),
        Expr::Two { left, right, .. } => {
            mark_expr(marks, &left.expr);
            mark_expr(marks, &right.expr);
        }
    }
}

// Marks the item as read. One without a place in the table is in no catalog.
#[tactic(auto, using(std::proofs::lemmas::List::set_past))]
fn mark_read(marks: &mut [Mark], item: ItemId)
    ensures { marks.new ≡ with_read marks.old item.0 }
{
    let place = item.0 as usize;
    if place < marks.len() {
        marks[place] = marks[place].read();
    }
}

// Marks the item as assigned. One without a place in the table is in no catalog.
#[tactic(auto, using(std::proofs::lemmas::List::set_past))]
fn mark_assigned(marks: &mut [Mark], item: ItemId)
    ensures { marks.new ≡ with_assigned marks.old item.0 }
{
    let place = item.0 as usize;
    if place < marks.len() {
        marks[place] = Mark::Exclusive;
    }
}
