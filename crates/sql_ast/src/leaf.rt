use pg_values::PgText;

/// An expression without operands.
#[derive(Debug, Drop)]
pub enum Leaf {
    /// A whole number; 2^63 stands for every number that is no `bigint`.
    Number(u64),
    /// A string between single quotes.
    Text(PgText),
    /// `DATE` and a string.
    Date(PgText),
    Null,
    Truth(bool),
    /// The number behind `$`.
    Parameter(u64),
    Column(PgText),
    /// A column behind the name of its table.
    ColumnOf(PgText, PgText),
    /// `tableoid::regclass`: the table in which a row lies.
    TableName,
    /// The same behind the name of a table.
    TableNameOf(PgText),
}

/// What two operands are joined by.
#[derive(Clone, Copy, Debug, PartialEq, Eq)]
pub enum Operator {
    Add,
    Subtract,
    Multiply,
    Divide,
    Remainder,
    Equal,
    NotEqual,
    Less,
    LessEqual,
    Greater,
    GreaterEqual,
}
