use pg_values::{KeyKind, Value, cmp_values, value_hash};
use std::cell::Cell;
use std::cmp::Ordering;

/// Values of every kind; each comparison of two is counted.
#[derive(Clone, Copy)]
pub(crate) struct CountedKey<'c> {
    pub(crate) count: &'c Cell<u64>,
}

impl<'c> KeyKind for CountedKey<'c> {
    ghost use Rattle.pg_values.specs.KeyKinds.{IsNotNull, not_null_closed, total_on, hash_alike};

    ghost admits = { λ _ v. IsNotNull v };

    ghost closed = { λ _. not_null_closed };

    ghost total = { λ _. total_on IsNotNull };

    ghost alike = { λ _ a b _ _ e. hash_alike a b e };

    fn compare(&self, a: &Value, b: &Value) -> Ordering {
        self.count.set(self.count.get().saturating_add(1));
        cmp_values(a, b)
    }

    fn hash(&self, v: &Value) -> u64 {
        value_hash(v)
    }
}
