use crate::{Expr, NamedTable};
use pg_values::{ListOf, PgText};

/// What a SELECT lists.
#[derive(Debug, Drop)]
pub enum SelectItem {
    /// `*`
    All,
    /// The name of a table and `.*`.
    AllOf(PgText),
    /// An expression, and its alias.
    Output(Expr, Option<PgText>),
}

/// A table of FROM. One that is joined by JOIN has the condition of its ON.
#[derive(Debug, Drop)]
pub struct FromItem {
    pub table: NamedTable,
    pub on: Option<Expr>,
}

/// A key of ORDER BY. Nulls come first where NULLS FIRST says so, and behind DESC where nothing is said.
#[derive(Debug, Drop)]
pub struct SortKey {
    pub value: Expr,
    pub descending: bool,
    pub nulls_first: bool,
}

/// A SELECT. LIMIT ALL is no limit.
#[derive(Debug, Drop)]
pub struct Select {
    pub items: ListOf<SelectItem>,
    pub from: ListOf<FromItem>,
    pub condition: Option<Expr>,
    pub order: ListOf<SortKey>,
    pub limit: Option<Expr>,
    pub offset: Option<Expr>,
}
