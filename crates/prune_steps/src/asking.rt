ghost use Rattle.std.specs.Prelude.{◌≡◌};
ghost use Rattle.pg_values.specs.declared.value.Value.TheVariants.{Null as NullValue};

use bound_forms::Level;
use cond_logic::{Binding, CompareOp};
use pg_values::Value;

/// What a condition is asked of: the columns of a FROM item, which are those of a level. Known are the arguments
/// of the binding, and its rows of the items before one.
#[derive(Debug, Drop)]
pub(crate) struct Asking<'c> {
    pub(crate) item: u32,
    pub(crate) level: &'c Level,
    pub(crate) before: u32,
    pub(crate) binding: &'c Binding<'c>,
    pub(crate) null: &'c Value,
    ghost is_null: { null.now ≡ NullValue },
}

/// A comparison read with the column on the left.
#[derive(Debug, Drop)]
pub(crate) enum Read<'c> {
    /// With null: never true.
    Never,
    /// It says nothing of a key column by itself.
    Anything,
    /// A key column, by its number from 0, against a known value that it can be compared with.
    On(usize, CompareOp, &'c Value),
}
