// What a program does to rows.
ghost use Rattle.std.specs.Prelude.{◌≡◌, IfOk, IsTrue};
ghost use Rattle.pv_model.specs.Meaning.{value_of, course_of, exec, then_run};
ghost use Rattle.pv_model.specs.Items.{has_all_items};
ghost use Rattle.pv_model.specs.Syntax as model;
ghost use Rattle.pv_ast.specs.OpView.{op_of};
ghost use Rattle.pv_ast.specs.ShortCircuit.{IsShortCircuit};
ghost use Rattle.pv_ast.specs.ExprView.{expr_of};
ghost use Rattle.pv_ast.specs.CourseView.{course_from};
ghost use Rattle.pv_ast.specs.ProgramView.{followed_by};

use crate::arithmetic::{compute, negative, truth};
use crate::rows::{assign, value_in};
use crate::{Decline, Effect, Expr, Op, Program, Reply, Row, Stmt};
use pv_base::NoMemory;
use std::alloc::Global;

/// Runs the program on a copy of the rows, which have each of its items once ([`Program::has_items`] says whether they do). The reply
/// says how it ended, and a program that declines leaves the rows. Takes time in proportion to the parts of the program that
/// run, times the number of rows, and recurses as deep as the program's tree: a chain of n operators has n levels.
#[tactic(auto, unfolding(pv_model::specs::Meaning::exec))]
pub fn exec(alloc: Global, program: &Program, rows: &[Row]) -> Result<Effect, NoMemory>
    requires { IsTrue (has_all_items rows.now program.now) }
    ensures { IfOk result (λ effect. effect ≡ exec program.now rows.now) }
{
    let mut after = Vec::from_slice(alloc, rows)?;
    match run_statements(program, &mut after) {
        Ok(Some(value)) => Ok(Effect {
            rows: after,
            reply: Reply::Value(value),
        }),
        Ok(None) => Ok(Effect {
            rows: after,
            reply: Reply::Nothing,
        }),
        Err(decline) => {
            after.copy_from_slice(rows);
            Ok(Effect {
                rows: after,
                reply: Reply::Declined(decline),
            })
        }
    }
}

// Runs the program. It answers the value that a `return` gave; after a decline nothing is promised of the rows.
#[cycle(statements)]
fn run_statements(program: &Program, rows: &mut [Row]) -> Result<Option<i64>, Decline>
    ensures { course_from result rows.new ≡ course_of program.now rows.old }
{
    for stmt in &program.stmts {
        if let Some(value) = step(stmt, rows)? {
            return Ok(Some(value));
        }
    }
    Ok(None)
}

// Runs one statement.
#[cycle(statements)]
fn step(stmt: &Stmt, rows: &mut [Row]) -> Result<Option<i64>, Decline>
    ensures { (next : model.Program) → then_run (course_from result rows.new) (course_of next) ≡ course_of (followed_by stmt.now next) rows.old }
{
    match stmt {
        Stmt::Assign { item, value } => {
            let value = value_of(value, rows)?;
            assign(rows, *item, value);
            Ok(None)
        }
        Stmt::Require(test) => {
            if value_of(test, rows)? == 0 {
                return Err(Decline::Require);
            }
            Ok(None)
        }
        Stmt::Certain(_) => Ok(None),
        Stmt::Return(value) => Ok(Some(value_of(value, rows)?)),
        Stmt::If { test, body, other } => {
            if value_of(test, rows)? != 0 {
                return run_statements(body, rows);
            }
            match other {
                Some(other) => run_statements(other, rows),
                None => Ok(None),
            }
        }
    }
}

// The value of an expression.
fn value_of(expr: &Expr, rows: &[Row]) -> Result<i64, Decline>
    ensures { result ≡ value_of (expr_of expr.now) rows.now }
{
    match expr {
        Expr::Number(number) => Ok(*number),
        Expr::Item(item) => Ok(value_in(rows, *item)),
        Expr::Minus(inner) => {
            let value = value_of(&inner.expr, rows)?;
            negative(value)
        }
        Expr::Not(inner) => {
            let value = value_of(&inner.expr, rows)?;
            Ok(truth(value == 0))
        }
        Expr::Two { op, left, right } => {
            let x = value_of(&left.expr, rows)?;
            if let Some(value) = short_circuit(*op, x) {
                return Ok(value);
            }
            let y = value_of(&right.expr, rows)?;
            compute(*op, x, y)
        }
    }
}

// The value that the left side alone decides: 1 for `or` where it is true, 0 for `and` where it isn't.
fn short_circuit(op: Op, x: i64) -> Option<i64>
    ensures { IsShortCircuit (op_of op) x result }
{
    match op {
        Op::Or => if x == 0 { None } else { Some(1) },
        Op::And => if x == 0 { Some(0) } else { None },
        _ => None,
    }
}
