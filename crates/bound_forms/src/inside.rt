ghost use Rattle.std.specs.Prelude.{◌≡◌, ◌<◌, All};
ghost use Rattle.pg_values.specs.KeyKinds.{IsNotNull};
ghost use Rattle.bound_forms.specs.Bounds.{BoundOfKind, CanCompare};
ghost use Rattle.bound_forms.specs.Listed.{ListsFit, ValueOfKind};
ghost use Rattle.bound_forms.specs.Within as within_spec;
ghost use Rattle.bound_forms.specs.Within.{lists_all, leaves_outer};

use crate::Bound;
use crate::listed::lists;
use crate::moduli::is_factor;
use crate::point::cmp_points;
use pg_values::{Row, ValueKey};

// Whether each value is among the others.
fn lists_each(values: &Row, others: &Row) -> bool
    requires fit { ListsFit others.now values.now }
    requires of_kind { All (ValueOfKind IsNotNull) others.now }
    ensures { result ≡ lists_all values.now others.now }
{
    for i in 0..values.len() {
        if !lists(&ValueKey, others, values.value(i)) {
            return false;
        }
    }
    true
}

// Whether what leaves the inner remainder leaves the outer one.
fn leaves_both(m: u32, r: u32, n: u32, s: u32) -> bool
    requires { 0 < n }
    ensures { result ≡ leaves_outer m r n s }
{
    is_factor(n, m) && r % n == s
}

/// Whether the bounds tell that the outer one accepts all that the inner one accepts.
pub fn within(inner: &Bound, outer: &Bound) -> bool
    requires fit { CanCompare outer.now inner.now }
    requires of_kind { BoundOfKind IsNotNull outer.now }
    ensures { result ≡ within_spec.within inner.now outer.now }
{
    match (inner, outer) {
        (
            Bound::Range { lower, upper },
            Bound::Range {
                lower: from,
                upper: to,
            },
        ) => cmp_points(&ValueKey, from, lower).is_le() && cmp_points(&ValueKey, to, upper).is_ge(),
        (Bound::List { values }, Bound::List { values: others }) => lists_each(values, others),
        (
            Bound::Hash { modulus, remainder },
            Bound::Hash {
                modulus: other,
                remainder: rest,
            },
        ) => leaves_both(*modulus, *remainder, *other, *rest),
        _ => false,
    }
}
