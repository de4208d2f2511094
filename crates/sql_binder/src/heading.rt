ghost use Rattle.std.specs.Prelude.{◌≡◌, IfOk};
ghost use Rattle.sql_ast.specs.Expressions.{tree};
ghost use Rattle.sql_binder.specs.Items as items_of;
ghost use Rattle.sql_binder.specs.Lent.{heading};

use expression_binder::ScopeColumn;
use pg_values::{NoMemory, PgText};
use sql_ast::{Expr, Leaf};
use std::alloc::Global;

/// An expression: a column that a star lists, or one that is written.
#[derive(Debug, Drop)]
pub enum OutputValue<'a> {
    Column(Expr),
    Written(&'a Expr),
}

/// An output column as ORDER BY finds it: its name, and the expression that it gives.
#[derive(Debug, Drop)]
pub struct Heading<'a> {
    name: &'a [u8],
    value: OutputValue<'a>,
}

impl<'a> Heading<'a> {
    /// A column of the item of that name.
    pub(crate) fn of_column(
        alloc: Global,
        item: &[u8],
        column: &'a ScopeColumn,
    ) -> Result<Self, NoMemory>
        ensures { IfOk result (λ h. heading h ≡ items_of.column_heading item.now column.now) }
    {
        let name = column.name.as_bytes();
        let table = PgText::from_bytes(alloc, item)?;
        let leaf = Leaf::ColumnOf(table, PgText::from_bytes(alloc, name)?);
        let value = OutputValue::Column(Expr::Leaf(leaf));
        Ok(Heading { name, value })
    }

    /// An expression of the list.
    pub(crate) fn of_expression(name: &'a [u8], e: &'a Expr) -> Self
        ensures { heading result ≡ record { name = name.now; value = tree e.now } }
    {
        let value = OutputValue::Written(e);
        Heading { name, value }
    }

    pub(crate) fn name(&self) -> &'a [u8]
        ensures { result.now ≡ (heading self.now).name }
    {
        self.name
    }

    pub(crate) fn value(&self) -> &Expr
        ensures { tree result.now ≡ (heading self.now).value }
    {
        match &self.value {
            OutputValue::Column(e) => e,
            OutputValue::Written(e) => e,
        }
    }
}
