//! Plain order, of bounds that may overlap or not suit one another too.

ghost use Rattle.std.specs.Prelude.{◌≡◌, true};
ghost use Rattle.bound_forms.specs.Bounds as bounds;
ghost use Rattle.bound_forms.specs.Bounds.{BoundOfKind, CanCompare};
ghost use Rattle.bound_forms.specs.Ordered.{are_alike};

use crate::Bound;
use crate::listed::cmp_least;
use crate::point::cmp_points;
use pg_values::KeyKind;

// Whether the first modulus and remainder stand behind the second.
fn is_behind(a: (u32, u32), b: (u32, u32)) -> bool
    ensures { result ≡ bounds.comes_after (Bound.Hash a.0 a.1) (Bound.Hash b.0 b.1) }
{
    a.0.cmp(&b.0).then(a.1.cmp(&b.1)).is_gt()
}

/// Whether the first bound stands behind the second in plain order.
pub fn comes_after<K: KeyKind>(kind: &K, a: &Bound, b: &Bound) -> bool
    requires alike { are_alike a.now b.now ≡ true }
    requires compare { CanCompare a.now b.now }
    requires first { BoundOfKind (K.admits kind.now) a.now }
    requires second { BoundOfKind (K.admits kind.now) b.now }
    ensures { result ≡ bounds.comes_after a.now b.now }
{
    match (a, b) {
        (_, Bound::Default) => false,
        (Bound::Default, _) => true,
        (Bound::Range { lower, .. }, Bound::Range { lower: other, .. }) => {
            cmp_points(kind, lower, other).is_gt()
        }
        (Bound::List { values }, Bound::List { values: others }) => {
            cmp_least(kind, values, others).is_gt()
        }
        (
            Bound::Hash { modulus, remainder },
            Bound::Hash {
                modulus: other,
                remainder: rest,
            },
        ) => is_behind((*modulus, *remainder), (*other, *rest)),
        _ => unreachable!(),
    }
}
