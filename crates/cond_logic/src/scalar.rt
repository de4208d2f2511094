use crate::ColumnId;
use pg_values::Value;
use value_rules::Arith;

/// What a select list or SET computes from a tuple of rows.
#[cycle(scalar)]
#[derive(Debug, Drop)]
pub enum Scalar {
    Column(ColumnId),
    Lit(Value),
    /// The name of the leaf in which the row of that FROM item lies.
    TableName(u32),
    Arith(Arith, Box<Scalar>, Box<Scalar>),
    /// Whether there is a session of that number; its waiting statement is cancelled.
    Cancel(Box<Scalar>),
}
