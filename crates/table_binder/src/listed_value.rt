//! The values of a list as keys.

ghost use Rattle.std.specs.Cmp.{eq_by_cmp_equiv, on_equiv, on_per, partial_equiv_from_equiv};
ghost use Rattle.std.specs.Hash as fed;
ghost use Rattle.pg_values.specs.Hash.{value_hash};
ghost use Rattle.pg_values.specs.KeyKinds.{order_total};
ghost use Rattle.bound_forms.specs.Listed.{is_same};
ghost use Rattle.table_binder.specs.ListedValues.{value_of, fed_alike};

use pg_values::{Value, cmp_any, value_hash};
use std::hash::{Hash, Hasher};

/// A value of a list as a key. Values that are the same are one key.
#[derive(Drop)]
pub(crate) struct ListedValue {
    pub(crate) value: Value,
}

impl PartialEq for ListedValue {
    ghost eq = { λ a b. is_same (value_of a) (value_of b) };

    ghost laws = { on_per value_of (partial_equiv_from_equiv (eq_by_cmp_equiv order_total)) };

    fn eq(&self, other: &ListedValue) -> bool {
        cmp_any(&self.value, &other.value).is_eq()
    }
}

impl Eq for ListedValue {
    ghost laws = { on_equiv value_of (eq_by_cmp_equiv order_total) };
}

impl Hash for ListedValue {
    ghost hash_input = { λ k. fed.u64 (value_hash (value_of k)) };

    ghost respects_eq = { fed_alike };

    fn hash<H: Hasher>(&self, state: &mut H) {
        state.write_u64(value_hash(&self.value));
    }
}
