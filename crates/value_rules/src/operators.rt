/// `+`, `-`, `*`, `/` and `%`.
#[derive(Clone, Copy, Debug, PartialEq, Eq)]
pub enum Arith {
    Add,
    Sub,
    Mul,
    Div,
    Rem,
}

/// A number or a date out of range, a zero divisor, or an operator that is not there for the two
/// kinds.
#[derive(Clone, Copy, Debug, PartialEq, Eq)]
pub enum ArithFault {
    OutOfRange,
    DateRange,
    ZeroDivisor,
    NoOperator,
}
