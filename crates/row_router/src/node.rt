ghost use Rattle.std.specs.Prelude.{◌≡◌, IfOk};

use history::Columns;
use pg_values::{NoMemory, PgText, TableNo};
use std::alloc::Global;

/// What a tree says of a table by itself.
#[derive(Debug, Drop)]
pub struct Node {
    pub table: TableNo,
    pub name: PgText,
    pub columns: Columns,
}

impl Node {
    pub fn copy(&self, alloc: Global) -> Result<Self, NoMemory>
        ensures { IfOk result (λ copy. copy ≡ self.now) }
    {
        Ok(Node {
            table: self.table,
            name: self.name.copy(alloc)?,
            columns: self.columns.copy(alloc)?,
        })
    }
}
