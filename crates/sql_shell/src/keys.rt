//! Keys of a level from words.

ghost use Rattle.std.specs.Prelude.{IfOk};
ghost use Rattle.std.specs.List.{AllZip};
ghost use Rattle.bound_forms.specs.Levels.{ComparesWith, IsKeyOfLevel};

use bound_forms::{Key, KeyColumn, Level};
use pg_values::{Kind, Refusal, Row, Value};
use std::alloc::Global;
use value_rules::read_value;

/// The values of a row as a key.
#[derive(Clone, Copy)]
pub(crate) struct WholeRow<'r> {
    pub(crate) row: &'r Row,
}

impl<'r> Key for WholeRow<'r> {
    ghost values = { λ k. k.row.now };

    fn len(&self) -> usize {
        self.row.len()
    }

    fn value(&self, i: usize) -> &Value {
        self.row.value(i)
    }
}

// A value of the kind.
fn value_of(alloc: Global, kind: Kind, word: &str) -> Result<Value, Refusal>
    ensures { IfOk result (λ v. ComparesWith kind v) }
{
    read_value(alloc, kind, word.as_bytes())
}

// A value of the kind, or null.
fn key_value(alloc: Global, kind: Kind, word: &str) -> Result<Value, Refusal>
    ensures { IfOk result (λ v. ComparesWith kind v) }
{
    if word == "null" {
        return Ok(Value::Null);
    }
    value_of(alloc, kind, word)
}

// Values of the columns' kinds.
fn key_values(alloc: Global, columns: &[KeyColumn], words: &str) -> Result<Row, Refusal>
    ensures { IfOk result (λ row. AllZip (λ c v. ComparesWith c.kind v) columns.now row) }
{
    let mut row = Row::new(alloc);
    let mut words = words.split(' ');
    for column in columns {
        let word = words.next().unwrap_or("null");
        row.push(key_value(alloc, column.kind, word)?)?;
    }
    Ok(row)
}

/// A key of the level.
pub(crate) fn key_of(alloc: Global, level: &Level, words: &str) -> Result<Row, Refusal>
    ensures { IfOk result (λ row. IsKeyOfLevel level.now row) }
{
    key_values(alloc, level.columns.as_slice(), words)
}
