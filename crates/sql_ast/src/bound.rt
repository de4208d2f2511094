use crate::{Expr, ExprList};
use pg_values::ListOf;

/// A partition bound as it is written.
#[derive(Debug, Drop)]
pub enum BoundText {
    /// FROM and TO.
    Range(EdgeList, EdgeList),
    /// IN.
    List(ExprList),
    /// MODULUS and REMAINDER; 2^63 stands for every number that is no `bigint`.
    Hash(u64, u64),
    Default,
}

/// An edge of a range.
#[derive(Debug, Drop)]
pub enum EdgeText {
    MinValue,
    MaxValue,
    Value(Expr),
}

/// The edges of FROM or TO in order.
pub type EdgeList = ListOf<EdgeText>;
