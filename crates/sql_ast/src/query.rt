use crate::{Delete, ExprList, Insert, NameList, Select, Update};
use pg_values::PgText;
use std::rc::Rc;

/// A statement that reads or changes rows.
#[derive(Debug, Drop)]
pub enum RowStatement {
    Select(Select),
    Insert(Insert),
    Update(Update),
    Delete(Delete),
}

/// A statement that reads or changes rows, or prepares, executes or explains such a one.
#[derive(Debug, Drop)]
pub enum Query {
    Rows(RowStatement),
    /// A name, the kinds of the parameters where they are declared, and the statement, which a session keeps.
    Prepare(PgText, NameList, Rc<RowStatement>),
    /// A name and the arguments.
    Execute(PgText, ExprList),
    /// Whether the statement is run too, and the statement.
    ExplainSelect(bool, Select),
    ExplainExecute(bool, PgText, ExprList),
}
