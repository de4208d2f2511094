ghost use Rattle.std.specs.Prelude.{◌≡◌, ◌++◌, ◌∷◌, [], length, OnOk, OnErr};
ghost use Rattle.pg_values.specs.declared.strategy.Strategy.TheVariants.{List as ByList};

use pg_values::{Kind, NoMemory, Strategy};
use std::alloc::Global;
use std::marker::Model;

/// A column of a partition key: its place among the columns of the table, and its kind.
#[derive(Clone, Copy, Debug)]
pub struct KeyColumn {
    pub position: usize,
    pub kind: Kind,
}

/// The columns of a partition key in their order, seen as their list.
#[derive(Debug, Drop)]
pub struct KeyColumns {
    columns: Vec<KeyColumn>,
}

impl Model for KeyColumns {
    ghost use Rattle.std.specs.Prelude.{List};
    ghost use Rattle.bound_forms.specs.declared.level.KeyColumn.{KeyColumn};

    ghost Value = { List KeyColumn };

    ghost view = { λ c. c.columns.items };
}

impl KeyColumns {
    pub fn new(alloc: Global) -> Self
        ensures { result ≡ [] }
    {
        KeyColumns {
            columns: Vec::new(alloc),
        }
    }

    pub fn as_slice(&self) -> &[KeyColumn]
        ensures { result.now ≡ self.now }
    {
        &self.columns
    }

    pub fn push(&mut self, column: KeyColumn) -> Result<(), NoMemory>
        ensures ok { OnOk result (self.new ≡ self.old ++ column ∷ []) }
        ensures err { OnErr result (self.new ≡ self.old) }
    {
        self.columns.push(column)?;
        Ok(())
    }
}

/// What the bounds of one table's partitions are bounds of: its strategy and its key columns. A
/// table partitioned BY LIST has one key column.
#[derive(Debug, Drop)]
pub struct Level {
    pub strategy: Strategy,
    pub columns: KeyColumns,
    ghost one_if_list: { strategy ≡ ByList → length columns ≡ 1 },
}
