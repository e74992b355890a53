// Whether rows have each item of a program once, which items the program assigns, and which it requires to be certain.
ghost use Rattle.std.specs.Prelude.{◌≡◌, ◌&&◌, ◌||◌};
ghost use Rattle.pv_model.specs.Check.{requires_certain};
ghost use Rattle.pv_model.specs.Items.{has_items, has_all_items};
ghost use Rattle.pv_model.specs.ProgramLaws.{assigns};
ghost use Rattle.pv_model.specs.Syntax as model;
ghost use Rattle.pv_ast.specs.ExprView.{expr_of};
ghost use Rattle.pv_ast.specs.ProgramView.{followed_by};

use crate::rows::has_once;
use crate::{Expr, Program, Row, Stmt};
use pv_base::ItemId;

impl Program {
    /// Whether the rows have each item of the program once. Takes time in proportion to the program's parts, times the number
    /// of rows, and recurses as deep as the program's tree.
    #[cycle(has_items)]
    pub fn has_items(&self, rows: &[Row]) -> bool
        ensures { result ≡ has_all_items rows.now self.now }
    {
        for stmt in &self.stmts {
            if !stmt.has_items(rows) {
                return false;
            }
        }
        true
    }

    /// Whether some assignment of the program names the item, also one that never runs. Takes time in proportion to the
    /// program's statements, and recurses as deep as they nest.
    #[cycle(assigns)]
    pub fn assigns(&self, item: ItemId) -> bool
        ensures { result ≡ assigns self.now item.0 }
    {
        for stmt in &self.stmts {
            if stmt.assigns(item) {
                return true;
            }
        }
        false
    }

    /// Whether some statement of the program requires that the item be certain, also one that never runs. Takes time in proportion to
    /// the program's statements, and recurses as deep as they nest.
    #[cycle(requires_certain)]
    pub fn requires_certain(&self, item: ItemId) -> bool
        ensures { result ≡ requires_certain self.now item.0 }
    {
        for stmt in &self.stmts {
            if stmt.requires_certain(item) {
                return true;
            }
        }
        false
    }
}

impl Stmt {
    #[cycle(has_items)]
    fn has_items(&self, rows: &[Row]) -> bool
        ensures { (next : model.Program) → has_all_items rows.now (followed_by self.now next) ≡ (result && has_all_items rows.now next) }
    {
        match self {
            Stmt::Assign { item, value } => has_once(rows, *item) && value.has_items(rows),
            Stmt::Require(test) => test.has_items(rows),
            Stmt::Certain(item) => has_once(rows, *item),
            Stmt::Return(value) => value.has_items(rows),
            Stmt::If {
                test,
                body,
                other: None,
            } => test.has_items(rows) && body.has_items(rows),
            Stmt::If {
                test,
                body,
                other: Some(other),
            } => test.has_items(rows) && body.has_items(rows) && other.has_items(rows),
        }
    }

    #[cycle(assigns)]
    fn assigns(&self, item: ItemId) -> bool
        ensures { (next : model.Program) → assigns (followed_by self.now next) item.0 ≡ (result || assigns next item.0) }
    {
        match self {
            Stmt::Assign { item: assigned, .. } => *assigned == item,
            Stmt::Require(_) => false,
            Stmt::Certain(_) => false,
            Stmt::Return(_) => false,
            Stmt::If {
                body,
                other: None,
                ..
            } => body.assigns(item),
            Stmt::If {
                body,
                other: Some(other),
                ..
            } => body.assigns(item) || other.assigns(item),
        }
    }

    #[cycle(requires_certain)]
    fn requires_certain(&self, item: ItemId) -> bool
        ensures { (next : model.Program) → requires_certain (followed_by self.now next) item.0 ≡ (result || requires_certain next item.0) }
    {
        match self {
            Stmt::Assign { .. } => false,
            Stmt::Require(_) => false,
            Stmt::Certain(required) => *required == item,
            Stmt::Return(_) => false,
            Stmt::If {
                body,
                other: None,
                ..
            } => body.requires_certain(item),
            Stmt::If {
                body,
                other: Some(other),
                ..
            } => body.requires_certain(item) || other.requires_certain(item),
        }
    }
}

impl Expr {
    fn has_items(&self, rows: &[Row]) -> bool
        ensures { result ≡ has_items rows.now (expr_of self.now) }
    {
        match self {
            Expr::Number(_) => true,
            Expr::Item(item) => has_once(rows, *item),
            Expr::Minus(inner) => inner.expr.has_items(rows),
            Expr::Not(inner) => inner.expr.has_items(rows),
            Expr::Two { left, right, .. } => {
                left.expr.has_items(rows) && right.expr.has_items(rows)
            }
        }
    }
}
