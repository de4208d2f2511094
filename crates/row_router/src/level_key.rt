ghost use Rattle.std.specs.Prelude.{◌≡◌, ◌<◌, All, length, map, IfOk};
ghost use Rattle.bound_forms.specs.Points.{picked};

use bound_forms::{Key, KeyColumn, KeyColumns, Level};
use pg_values::{NoMemory, Row, Value};
use std::alloc::Global;

/// The key of a row at a level: its values at the places of the key columns.
#[derive(Clone, Copy)]
pub struct LevelKey<'r> {
    pub row: &'r Row,
    pub columns: &'r [KeyColumn],
    ghost in_row: { All (λ c. c.position < length row.now) columns.now },
}

impl<'r> Key for LevelKey<'r> {
    ghost values = { λ k. picked k.row.now (map (λ c. c.position) k.columns.now) };

    fn len(&self) -> usize {
        self.columns.len()
    }

    fn value(&self, i: usize) -> &Value {
        self.row.value(self.columns[i].position)
    }
}

/// A level equal to `level`.
pub fn copy_level(alloc: Global, level: &Level) -> Result<Level, NoMemory>
    ensures { IfOk result (λ copy. copy ≡ level.now) }
{
    let mut columns = KeyColumns::new(alloc);
    for column in level.columns.as_slice() {
        columns.push(*column)?;
    }
    Ok(Level {
        strategy: level.strategy,
        columns,
    })
}
