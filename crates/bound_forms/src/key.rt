ghost use Rattle.std.specs.Prelude.{◌≡◌, ◌<◌, List, length, slice_get, Some, All};
ghost use Rattle.pg_values.specs.declared.value.Value.{Value};
ghost use Rattle.pg_values.specs.Hash as hashes;
ghost use Rattle.pg_values.specs.Hash.{key_hash};
ghost use Rattle.bound_forms.specs.Points as points;
ghost use Rattle.bound_forms.specs.Points.{picked};
ghost use Rattle.bound_forms.specs.Accepts as accepts;

use pg_values::{Row, Value, combine_hash, value_hash};

/// A key lends its values.
pub trait Key {
    ghost values: { Self → List Value };

    fn len(&self) -> usize
        ensures { result ≡ length (values self.now) };

    fn value(&self, i: usize) -> &Value
        requires { i < length (values self.now) }
        ensures { slice_get (values self.now) i ≡ Some result.now };
}

/// The partition key of a row: its values at the positions of the key columns.
#[derive(Clone, Copy)]
pub struct RowKey<'r> {
    pub row: &'r Row,
    pub columns: &'r [usize],
    ghost in_row: { All (λ i. i < length row.now) columns.now },
}

impl<'r> Key for RowKey<'r> {
    ghost values = { λ k. picked k.row.now k.columns.now };

    fn len(&self) -> usize {
        self.columns.len()
    }

    fn value(&self, i: usize) -> &Value {
        self.row.value(self.columns[i])
    }
}

/// Whether a value is null.
pub fn is_null(value: &Value) -> bool
    ensures { result ≡ points.is_null value.now }
{
    matches!(value, Value::Null)
}

/// Whether a value of the key is null.
pub fn has_null<Q: Key>(key: &Q) -> bool
    ensures { result ≡ accepts.has_null (Q.values key.now) }
{
    for i in 0..key.len() {
        if is_null(key.value(i)) {
            return true;
        }
    }
    false
}

// The hash of a key so far, with that of a further value.
fn next_hash(hash: u64, value: &Value) -> u64
    ensures { result ≡ hashes.next_hash hash value.now }
{
    match value {
        Value::Null => hash,
        _ => combine_hash(hash, value_hash(value)),
    }
}

/// The hash of a key: those of its values that are not null, laid over one another in order.
pub fn row_hash<Q: Key>(key: &Q) -> u64
    ensures { result ≡ key_hash (Q.values key.now) }
{
    let mut hash = 0;
    for i in 0..key.len() {
        hash = next_hash(hash, key.value(i));
    }
    hash
}
