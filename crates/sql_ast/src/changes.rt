use crate::{Expr, ExprList, NameList, NamedTable};
use pg_values::{ListOf, PgText};

/// An INSERT: the columns where they are named, and the rows.
#[derive(Debug, Drop)]
pub struct Insert {
    pub table: PgText,
    pub columns: Option<NameList>,
    pub rows: ListOf<ExprList>,
}

/// A column and its new value.
#[derive(Debug, Drop)]
pub struct Assignment {
    pub column: PgText,
    pub value: Expr,
}

/// An UPDATE.
#[derive(Debug, Drop)]
pub struct Update {
    pub table: NamedTable,
    pub assignments: ListOf<Assignment>,
    pub condition: Option<Expr>,
}

/// A DELETE.
#[derive(Debug, Drop)]
pub struct Delete {
    pub table: NamedTable,
    pub condition: Option<Expr>,
}
