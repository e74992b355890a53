// Programs and their statements.
ghost use Rattle.std.specs.Prelude.{◌≡◌, IfOk};

use crate::Expr;
use pv_base::{ItemId, NoMemory};
use std::alloc::Global;
use std::marker::Model;

/// A program. Contracts see it as plain data, apart from where it lies in memory.
#[cycle(program)]
#[derive(Debug, Drop)]
pub struct Program {
    /// The statements in order.
    pub stmts: Vec<Stmt>,
}

/// A statement.
#[cycle(program)]
#[derive(Debug, Drop)]
pub enum Stmt {
    /// `ITEM := VALUE`
    Assign {
        /// The item.
        item: ItemId,
        /// Its new value.
        value: Expr,
    },
    /// `require TEST`
    Require(Expr),
    /// `require certain ITEM`. It does nothing when the program runs: whoever runs it has seen to it before.
    Certain(ItemId),
    /// `return VALUE`
    Return(Expr),
    /// `if TEST { BODY } else { OTHER }`
    If {
        /// The test.
        test: Expr,
        /// What runs where the test is true.
        body: Program,
        /// What runs where it isn't.
        other: Option<Program>,
    },
}

impl Model for Program {
    ghost use Rattle.pv_model.specs.Syntax as model;
    ghost use Rattle.pv_model.specs.SyntaxCodes.{program_code};

    ghost Value = { model.Program };

    ghost coded = { program_code };

    ghost use Rattle.pv_ast.specs.ProgramView.{program_of, size_of_program};

    ghost view = { λ program. program_of program.stmts.items };

    ghost size = { size_of_program };

    ghost use Rattle.pv_ast.specs.ProgramFalls.{most-le-size};

    ghost size_decreases = { λ program h. most-le-size program.stmts.items };
}

impl Program {
    /// An equal program. It recurses as deep as the tree: a chain of n operators has n levels.
    #[cycle(copy)]
    pub fn copy(&self, alloc: Global) -> Result<Program, NoMemory>
        ensures { IfOk result (λ copy. copy ≡ self.now) }
    {
        let mut stmts = Vec::new(alloc);
        for stmt in &self.stmts {
            stmts.push(stmt.copy(alloc)?)?;
        }
        Ok(Program { stmts })
    }
}

impl Stmt {
    /// An equal statement.
    #[cycle(copy)]
    pub fn copy(&self, alloc: Global) -> Result<Stmt, NoMemory>
        ensures { IfOk result (λ copy. copy ≡ self.now) }
    {
        match self {
            Stmt::Assign { item, value } => Ok(Stmt::Assign {
                item: *item,
                value: value.copy(alloc)?,
            }),
            Stmt::Require(test) => Ok(Stmt::Require(test.copy(alloc)?)),
            Stmt::Certain(item) => Ok(Stmt::Certain(*item)),
            Stmt::Return(value) => Ok(Stmt::Return(value.copy(alloc)?)),
            Stmt::If {
                test,
                body,
                other: None,
            } => Ok(Stmt::If {
                test: test.copy(alloc)?,
                body: body.copy(alloc)?,
                other: None,
            }),
            Stmt::If {
                test,
                body,
                other: Some(other),
            } => Ok(Stmt::If {
                test: test.copy(alloc)?,
                body: body.copy(alloc)?,
                other: Some(other.copy(alloc)?),
            }),
        }
    }
}
