// Whether the numbers of a program have 64 bits.
ghost use Rattle.std.specs.Prelude.{◌≡◌, ◌&&◌};
ghost use Rattle.pv_ast.specs.ExprView.{expr_of};
ghost use Rattle.pv_ast.specs.ProgramView.{followed_by};
ghost use Rattle.pv_model.specs.Meaning.{fits_i64};
ghost use Rattle.pv_model.specs.Syntax as model;
ghost use Rattle.pv_protocol.specs.WellFormed.{has_small_numbers, is_of_small_numbers};

use pv_ast::{Expr, Program, Stmt};

// Whether the numbers of the program have 64 bits, which is asked of a program that can run. Each has, as its type says; but the toolchain
// knows it of a number only where that is read, so this goes over them.
#[cycle(numbers)]
pub(crate) fn has_small_numbers(program: &Program) -> bool
    ensures { result ≡ has_small_numbers program.now }
{
    for stmt in &program.stmts {
        if !has_small_numbers_in(stmt) {
            return false;
        }
    }
    true
}

// Whether those of the statement have.
#[cycle(numbers)]
fn has_small_numbers_in(stmt: &Stmt) -> bool
    ensures { (next : model.Program) → has_small_numbers (followed_by stmt.now next) ≡ (result && has_small_numbers next) }
{
    match stmt {
        Stmt::Assign { value, .. } => is_of_small_numbers(value),
        Stmt::Require(test) => is_of_small_numbers(test),
        Stmt::Certain(_) => true,
        Stmt::Return(value) => is_of_small_numbers(value),
        Stmt::If {
            test,
            body,
            other: None,
        } => is_of_small_numbers(test) && has_small_numbers(body),
        Stmt::If {
            test,
            body,
            other: Some(other),
        } => is_of_small_numbers(test) && has_small_numbers(body) && has_small_numbers(other),
    }
}

// Whether those of the expression have.
fn is_of_small_numbers(expr: &Expr) -> bool
    ensures { result ≡ is_of_small_numbers (expr_of expr.now) }
{
    match expr {
        Expr::Number(number) => is_small(*number),
        Expr::Item(_) => true,
        Expr::Minus(inner) => is_of_small_numbers(&inner.expr),
        Expr::Not(inner) => is_of_small_numbers(&inner.expr),
        Expr::Two { left, right, .. } => {
            is_of_small_numbers(&left.expr) && is_of_small_numbers(&right.expr)
        }
    }
}

// Whether the number has 64 bits.
#[tactic(auto, using(crate::proofs::FitLemmas::sizes))]
fn is_small(_number: i64) -> bool
    ensures { result ≡ fits_i64 _number }
{
    true
}
