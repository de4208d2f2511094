ghost use Rattle.std.specs.Prelude.{◌≡◌, ◌<◌, ◌||◌, true};
ghost use Rattle.bound_forms.specs.Bounds.{is_filled};
ghost use Rattle.bound_forms.specs.Moduli as moduli;
ghost use Rattle.bound_forms.specs.Moduli.{divides, meets};

use crate::Bound;

// Whether the first modulus is a factor of the second.
pub(crate) fn is_factor(m: u32, n: u32) -> bool
    requires { 0 < m }
    ensures { result ≡ divides m n }
{
    n % m == 0
}

// Whether the first modulus is a factor of the second and the remainders agree modulo the first.
fn agrees(m: u32, r: u32, n: u32, s: u32) -> bool
    requires { 0 < m }
    ensures { result ≡ meets m r n s }
{
    is_factor(m, n) && s % m == r % m
}

/// Whether two remainders overlap.
pub fn remainders_meet(m: u32, r: u32, n: u32, s: u32) -> bool
    requires first { 0 < m }
    requires second { 0 < n }
    ensures { result ≡ (meets m r n s || meets n s m r) }
{
    agrees(m, r, n, s) || agrees(n, s, m, r)
}

/// Whether one modulus is a factor of the other, where both bounds have one.
pub fn moduli_suit(a: &Bound, b: &Bound) -> bool
    requires first { is_filled a.now ≡ true }
    requires second { is_filled b.now ≡ true }
    ensures { result ≡ moduli.moduli_suit a.now b.now }
{
    match (a, b) {
        (Bound::Hash { modulus: m, .. }, Bound::Hash { modulus: n, .. }) => {
            is_factor(*m, *n) || is_factor(*n, *m)
        }
        _ => true,
    }
}

/// The modulus of a bound that has one.
pub fn modulus_of(b: &Bound) -> Option<u32>
    ensures { result ≡ moduli.modulus_of b.now }
{
    match b {
        Bound::Hash { modulus, .. } => Some(*modulus),
        _ => None,
    }
}
