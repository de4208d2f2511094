use crate::{Cond, Scalar};
use pg_values::ListOf;

/// A column by its place, and its new value.
#[derive(Debug, Drop)]
pub struct Setting {
    pub column: usize,
    pub value: Scalar,
}

/// An UPDATE with its settings, or a DELETE with none; and the condition, where there is one.
#[derive(Debug, Drop)]
pub struct ChangeAsk {
    pub settings: ListOf<Setting>,
    pub condition: Option<Cond>,
}
