ghost use Rattle.std.specs.Prelude.{true, ◌≡◌, ◌<◌, ◌%◌, ◌==◌};
ghost use Rattle.bound_forms.specs.Bounds.{is_filled, BoundOfKind};
ghost use Rattle.bound_forms.specs.Accepts as accepts;
ghost use Rattle.bound_forms.specs.Accepts.{FitsBound};

use crate::key::{has_null, row_hash};
use crate::listed::lists;
use crate::point::cmp_key;
use crate::{Bound, Key};
use pg_values::KeyKind;

// Whether the hash leaves the remainder.
fn leaves(hash: u64, modulus: u32, remainder: u32) -> bool
    requires { 0 < modulus }
    ensures { result ≡ (hash % modulus == remainder) }
{
    hash % modulus as u64 == remainder as u64
}

/// Whether the bound has a remainder that the hash leaves.
pub fn leaves_remainder(b: &Bound, hash: u64) -> bool
    requires { is_filled b.now ≡ true }
    ensures { result ≡ accepts.leaves_remainder hash b.now }
{
    match b {
        Bound::Hash { modulus, remainder } => leaves(hash, *modulus, *remainder),
        _ => false,
    }
}

/// Whether the bound by itself accepts the key. `DEFAULT` by itself accepts none.
pub fn bound_accepts<K: KeyKind, Q: Key>(kind: &K, b: &Bound, key: &Q) -> bool
    requires fits { FitsBound (Q.values key.now) b.now }
    requires of_kind { BoundOfKind (K.admits kind.now) b.now }
    ensures { result ≡ accepts.accepts (Q.values key.now) b.now }
{
    match b {
        Bound::Range { lower, upper } => {
            !has_null(key) && cmp_key(kind, lower, key).is_le() && cmp_key(kind, upper, key).is_gt()
        }
        Bound::List { values } => lists(kind, values, key.value(0)),
        Bound::Hash { modulus, remainder } => leaves(row_hash(key), *modulus, *remainder),
        Bound::Default => false,
    }
}
