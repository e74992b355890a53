// Whether a program assigns, whether it returns, and whether it names items below a limit alone.
ghost use Rattle.std.specs.Prelude.{◌≡◌, ◌&&◌, ◌||◌};
ghost use Rattle.pv_model.specs.Syntax as model;
ghost use Rattle.pv_model.specs.Check.{has_assignment, has_return};
ghost use Rattle.pv_ast.specs.ExprView.{expr_of};
ghost use Rattle.pv_ast.specs.ProgramView.{followed_by};
ghost use Rattle.pv_check.specs.Fits.{names_below, reads_below};

use pv_ast::{Expr, Program, Stmt};

/// Whether some assignment stands in the program.
#[cycle(has_assignment)]
pub(crate) fn has_assignment(program: &Program) -> bool
    ensures { result ≡ has_assignment program.now }
{
    for stmt in &program.stmts {
        if has_assignment_in(stmt) {
            return true;
        }
    }
    false
}

// Whether the statement is an assignment, or one stands in it.
#[cycle(has_assignment)]
fn has_assignment_in(stmt: &Stmt) -> bool
    ensures { (next : model.Program) → has_assignment (followed_by stmt.now next) ≡ (result || has_assignment next) }
{
    match stmt {
        Stmt::Assign { .. } => true,
        Stmt::Require(_) | Stmt::Certain(_) | Stmt::Return(_) => false,
        Stmt::If {
            body,
            other: None,
            ..
        } => has_assignment(body),
        Stmt::If {
            body,
            other: Some(other),
            ..
        } => has_assignment(body) || has_assignment(other),
    }
}

/// Whether some `return` stands in the program.
#[cycle(has_return)]
pub(crate) fn has_return(program: &Program) -> bool
    ensures { result ≡ has_return program.now }
{
    for stmt in &program.stmts {
        if has_return_in(stmt) {
            return true;
        }
    }
    false
}

// Whether the statement is a `return`, or one stands in it.
#[cycle(has_return)]
fn has_return_in(stmt: &Stmt) -> bool
    ensures { (next : model.Program) → has_return (followed_by stmt.now next) ≡ (result || has_return next) }
{
    match stmt {
        Stmt::Return(_) => true,
        Stmt::Assign { .. } | Stmt::Require(_) | Stmt::Certain(_) => false,
        Stmt::If {
            body,
            other: None,
            ..
        } => has_return(body),
        Stmt::If {
            body,
            other: Some(other),
            ..
        } => has_return(body) || has_return(other),
    }
}

/// Whether the items that the program names are below this one.
#[cycle(names_below)]
pub(crate) fn names_below(program: &Program, limit: u32) -> bool
    ensures { result ≡ names_below limit program.now }
{
    for stmt in &program.stmts {
        if !names_below_in(stmt, limit) {
            return false;
        }
    }
    true
}

// Whether the items that the statement names are.
#[cycle(names_below)]
fn names_below_in(stmt: &Stmt, limit: u32) -> bool
    ensures { (next : model.Program) → names_below limit (followed_by stmt.now next) ≡ (result && names_below limit next) }
{
    match stmt {
        Stmt::Assign { item, value } => item.0 < limit && reads_below(value, limit),
        Stmt::Require(test) => reads_below(test, limit),
        Stmt::Certain(item) => item.0 < limit,
        Stmt::Return(value) => reads_below(value, limit),
        Stmt::If {
            test,
            body,
            other: None,
        } => reads_below(test, limit) && names_below(body, limit),
        Stmt::If {
            test,
            body,
            other: Some(other),
        } => reads_below(test, limit) && names_below(body, limit) && names_below(other, limit),
    }
}

// Whether the items that the expression names are.
fn reads_below(expr: &Expr, limit: u32) -> bool
    ensures { result ≡ reads_below limit (expr_of expr.now) }
{
    match expr {
        Expr::Number(_) => true,
        Expr::Item(item) => item.0 < limit,
        Expr::Minus(inner) => reads_below(&inner.expr, limit),
        Expr::Not(inner) => reads_below(&inner.expr, limit),
        Expr::Two { left, right, .. } => {
            reads_below(&left.expr, limit) && reads_below(&right.expr, limit)
        }
    }
}
