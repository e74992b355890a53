// Expressions.
ghost use Rattle.std.specs.Prelude.{◌≡◌, IfOk};

use pv_base::{ItemId, NoMemory};
use std::alloc::Global;
use std::marker::Model;

/// The operators of two sides.
#[derive(Clone, Copy, Debug, PartialEq, Eq)]
pub enum Op {
    /// `or`
    Or,
    /// `and`
    And,
    /// `=`
    Equal,
    /// `<>`
    Unequal,
    /// `<`
    Less,
    /// `<=`
    AtMost,
    /// `>`
    Greater,
    /// `>=`
    AtLeast,
    /// `+`
    Plus,
    /// `-`
    Sub,
    /// `*`
    Times,
    /// `/`
    Over,
    /// `%`
    Rest,
    /// `min`
    Min,
    /// `max`
    Max,
}

/// An expression over items.
#[cycle(expr)]
#[derive(Debug, Drop)]
pub enum Expr {
    /// A number.
    Number(i64),
    /// An item's value.
    Item(ItemId),
    /// `-`
    Minus(Operand),
    /// `not`
    Not(Operand),
    /// An operator of two sides.
    Two {
        /// The operator.
        op: Op,
        /// The left side, or the first.
        left: Operand,
        /// The right side, or the second.
        right: Operand,
    },
}

/// An expression in another one. Contracts see it as plain data, apart from where it lies in memory.
#[cycle(expr)]
#[derive(Debug, Drop)]
pub struct Operand {
    /// The expression.
    pub expr: Box<Expr>,
}

impl Model for Operand {
    ghost use Rattle.pv_model.specs.Syntax as model;
    ghost use Rattle.pv_model.specs.SyntaxCodes.{expr_code};

    ghost Value = { model.Expr };

    ghost coded = { expr_code };

    ghost use Rattle.pv_ast.specs.ExprView.{expr_of, size_of_expr};

    ghost view = { λ operand. expr_of operand.expr.value };

    ghost size = { size_of_expr };

    ghost use Rattle.pv_ast.specs.ExprFalls.{deep-le-size};

    ghost size_decreases = { λ operand h. deep-le-size operand.expr.value };
}

impl Operand {
    ghost use Rattle.pv_ast.specs.ExprView.{expr_of};

    /// The expression, as a part of another one.
    pub fn new(alloc: Global, expr: Expr) -> Result<Operand, NoMemory>
        ensures { IfOk result (λ operand. operand ≡ expr_of expr) }
    {
        Ok(Operand {
            expr: Box::new(alloc, expr)?,
        })
    }
}

impl Expr {
    /// An equal expression. It recurses as deep as the tree: a chain of n operators has n levels.
    pub fn copy(&self, alloc: Global) -> Result<Expr, NoMemory>
        ensures { IfOk result (λ copy. copy ≡ self.now) }
    {
        match self {
            Expr::Number(number) => Ok(Expr::Number(*number)),
            Expr::Item(item) => Ok(Expr::Item(*item)),
            Expr::Minus(inner) => {
                let inner = inner.expr.copy(alloc)?;
                Ok(Expr::Minus(Operand::new(alloc, inner)?))
            }
            Expr::Not(inner) => {
                let inner = inner.expr.copy(alloc)?;
                Ok(Expr::Not(Operand::new(alloc, inner)?))
            }
            Expr::Two { op, left, right } => {
                let left = left.expr.copy(alloc)?;
                let left = Operand::new(alloc, left)?;
                let right = right.expr.copy(alloc)?;
                let right = Operand::new(alloc, right)?;
                Ok(Expr::Two {
                    op: *op,
                    left,
                    right,
                })
            }
        }
    }
}
