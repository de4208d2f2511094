ghost use Rattle.std.specs.Prelude.{◌≡◌, map};
ghost use Rattle.cond_logic.specs.Trees.{listed, cond_tree, cond_trees};

use crate::Truth3;
use pg_values::Value;

/// The operators of comparison: `=`, `<>`, `<`, `<=`, `>`, `>=`.
#[derive(Clone, Copy, Debug, PartialEq, Eq)]
pub enum CompareOp {
    Eq,
    Ne,
    Lt,
    Le,
    Gt,
    Ge,
}

/// A column of a FROM item: the item's number, from 0, and the column's place in its rows, from 0.
#[derive(Clone, Copy, Debug, PartialEq, Eq)]
pub struct ColumnId {
    pub item: u32,
    pub position: usize,
}

/// What is compared. A parameter is named by the place of its argument, so `$1` is `Param(0)`.
#[derive(Debug, Drop)]
pub enum Operand {
    Column(ColumnId),
    Lit(Value),
    Param(usize),
}

/// A condition over a tuple of rows and the arguments.
#[cycle(cond)]
#[derive(Debug, Drop)]
pub enum Cond {
    And(CondList),
    Or(CondList),
    Not(Box<Cond>),
    Compare(CompareOp, Operand, Operand),
    IsNull(Operand),
    Const(Truth3),
}

/// Conditions in order.
#[cycle(cond)]
#[derive(Debug, Drop)]
pub struct CondList {
    pub(crate) conds: Vec<Cond>,
}

impl CondList {
    pub fn from_vec(conds: Vec<Cond>) -> Self
        ensures { cond_trees result ≡ listed (map cond_tree conds.items) }
    {
        CondList { conds }
    }

    pub fn as_slice(&self) -> &[Cond]
        ensures { listed (map cond_tree result.now) ≡ cond_trees self.now }
    {
        &self.conds
    }
}
