//! The strategy of a level, which is that of its first bound.

ghost use Rattle.std.specs.Prelude.{◌≡◌, ◌<◌, List, length, true, false, slice_index_or};
ghost use Rattle.pg_values.specs.declared.value.Value.{Value};
ghost use Rattle.bound_forms.specs.Accepts.{FitsSet};
ghost use Rattle.part_bounds.specs.Stored.{of_ranges, of_hashes, HasPoints, IsRangeLevel, IsListLevel, IsHashLevel};

use crate::BoundSet;
use bound_forms::Bound;
use pg_values::KeyKind;

fn is_of_ranges(b: &Bound) -> bool
    ensures { result ≡ of_ranges b.now }
{
    match b {
        Bound::Range { .. } => true,
        Bound::Default => true,
        _ => false,
    }
}

fn is_of_hashes(b: &Bound) -> bool
    ensures { result ≡ of_hashes b.now }
{
    matches!(b, Bound::Hash { .. })
}

// Whether all bounds are ranges, perhaps with a default. Of a level that has points all others are lists, and a key has
// one value.
pub(crate) fn is_range_level<K: KeyKind>(set: &BoundSet<K>) -> bool
    ensures yes { result ≡ true → IsRangeLevel set.now }
    ensures no { result ≡ false → HasPoints set.now → IsListLevel set.now }
    ensures one { result ≡ false → HasPoints set.now → (key : List Value) → FitsSet set.now key → length key ≡ 1 }
{
    if set.bounds.len() == 0 {
        return true;
    }
    is_of_ranges(&set.bounds[0])
}

// Whether all bounds are moduli with remainders.
pub(crate) fn is_hash_level<K: KeyKind>(set: &BoundSet<K>) -> bool
    ensures yes { result ≡ true → IsHashLevel set.now }
    ensures no { result ≡ false → HasPoints set.now }
    ensures all { IsHashLevel set.now → result ≡ true }
{
    if set.bounds.len() == 0 {
        return true;
    }
    is_of_hashes(&set.bounds[0])
}
