use pg_values::Kind;

/// What kind an operand has before its place is looked at.
#[derive(Clone, Copy, Debug, PartialEq, Eq)]
pub enum Given {
    Of(Kind),
    /// A string literal.
    Quoted,
    /// Null, which fits every kind.
    Nothing,
}

/// What is known of an operand: its kind, and whether its value comes only with a row.
#[derive(Clone, Copy, Debug, PartialEq, Eq)]
pub struct Typed {
    pub given: Given,
    pub varies: bool,
}
