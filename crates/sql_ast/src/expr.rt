ghost use Rattle.std.specs.Prelude.{◌≡◌, map};
ghost use Rattle.sql_ast.specs.Expressions.{listed, tree, trees};

use crate::{Leaf, Operator};
use pg_values::PgText;

/// An expression as its text says it. Names are folded, and nothing is looked up. Parentheses have
/// no part in it, but a chain of ANDs in parentheses stays a chain of its own inside another one, and so
/// does a chain of ORs.
#[derive(Debug, Drop)]
#[cycle(tree)]
pub enum Expr {
    Leaf(Leaf),
    /// A function and its arguments.
    Call(PgText, ExprList),
    /// A function and `*`.
    CallOfAll(PgText),
    Negated(Box<Expr>),
    Binary(Operator, Box<Expr>, Box<Expr>),
    /// IN, or NOT IN where the first part is true.
    In(bool, Box<Expr>, ExprList),
    /// BETWEEN, or NOT BETWEEN where the first part is true.
    Between(bool, Box<Expr>, Box<Expr>, Box<Expr>),
    /// IS NULL, or IS NOT NULL where the first part is true.
    IsNull(bool, Box<Expr>),
    Not(Box<Expr>),
    And(ExprList),
    Or(ExprList),
}

/// Expressions in order.
#[derive(Debug, Drop)]
#[cycle(tree)]
pub struct ExprList {
    items: Vec<Expr>,
}

impl ExprList {
    pub fn from_vec(items: Vec<Expr>) -> Self
        ensures { trees result ≡ listed (map tree items.items) }
    {
        ExprList { items }
    }

    pub fn as_slice(&self) -> &[Expr]
        ensures { listed (map tree result.now) ≡ trees self.now }
    {
        &self.items
    }
}
