//! The search at a level by hash, for the remainder that a key's hash leaves. In plain order remainders stand by modulus, and those of
//! one modulus ascend, so each modulus is searched by halves. There are few: each is a factor of the next.

ghost use Rattle.std.specs.Prelude.{◌≡◌, ◌<◌, All, IfSome, IfNone, Some, length, position, slice_index_or, true, false};
ghost use Rattle.bound_forms.specs.Accepts as accepts_spec;
ghost use Rattle.bound_forms.specs.Bounds.{is_filled, IsInPlainOrder};
ghost use Rattle.bound_forms.specs.Moduli as moduli;
ghost use Rattle.bound_forms.specs.declared.partition_bound.Bound.TheVariants.{Default as ByDefault};
ghost use Rattle.part_bounds.specs.Remainders as spec;
ghost use Rattle.part_bounds.specs.Stored.{IsHashLevel, Splits};

use bound_forms::Bound;

// Whether the bound has this modulus and this remainder.
#[inline(always)]
fn is_remainder(b: &Bound, modulus: u32, remainder: u64) -> bool
    ensures { result ≡ spec.is_remainder modulus remainder b.now }
{
    match b {
        Bound::Hash {
            modulus: m,
            remainder: r,
        } => *m == modulus && *r as u64 == remainder,
        _ => false,
    }
}

// Whether the bound stands before this remainder of this modulus.
#[inline(always)]
fn stands_before(b: &Bound, modulus: u32, remainder: u64) -> bool
    ensures { result ≡ spec.stands_before modulus remainder b.now }
{
    match b {
        Bound::Hash {
            modulus: m,
            remainder: r,
        } => *m < modulus || *m == modulus && (*r as u64) < remainder,
        _ => false,
    }
}

// How many bounds stand before this remainder of this modulus.
fn place_of(bounds: &[Bound], modulus: u32, remainder: u64) -> usize
    requires hashes { IsHashLevel bounds.now }
    requires ordered { IsInPlainOrder bounds.now }
    ensures { Splits (spec.stands_before modulus remainder) bounds.now result }
{
    bounds.partition_point(|b| stands_before(b, modulus, remainder))
}

// Whether there is a bound at the place, and it has this modulus and this remainder.
#[inline(always)]
fn stands_at(bounds: &[Bound], i: usize, modulus: u32, remainder: u64) -> bool
    ensures within { result ≡ true → i < length bounds.now }
    ensures is { i < length bounds.now → result ≡ spec.is_remainder modulus remainder (slice_index_or bounds.now i ByDefault) }
{
    if i < bounds.len() {
        is_remainder(&bounds[i], modulus, remainder)
    } else {
        false
    }
}

// The place of this remainder of this modulus, whose bounds begin at `from`. Where it has all remainders, each stands as far behind
// the first as it is great.
fn find_remainder(bounds: &[Bound], from: usize, modulus: u32, remainder: u64) -> Option<usize>
    requires hashes { IsHashLevel bounds.now }
    requires ordered { IsInPlainOrder bounds.now }
    requires there { from < length bounds.now }
    requires remainder { remainder < modulus }
    ensures within { IfSome result (λ i. i < length bounds.now) }
    ensures is { IfSome result (λ i. spec.is_remainder modulus remainder (slice_index_or bounds.now i ByDefault) ≡ true) }
    ensures none { IfNone result (All (λ b. spec.is_remainder modulus remainder b ≡ false) bounds.now) }
{
    let near = from + remainder as usize;
    if stands_at(bounds, near, modulus, remainder) {
        return Some(near);
    }
    let at = place_of(bounds, modulus, remainder);
    if stands_at(bounds, at, modulus, remainder) {
        return Some(at);
    }
    None
}

fn modulus_at(bounds: &[Bound], i: usize) -> u32
    requires hashes { IsHashLevel bounds.now }
    requires filled { All (λ b. is_filled b ≡ true) bounds.now }
    requires there { i < length bounds.now }
    ensures is { moduli.modulus_of (slice_index_or bounds.now i ByDefault) ≡ Some result }
    ensures some { 0 < result }
{
    match &bounds[i] {
        Bound::Hash { modulus, .. } => *modulus,
        _ => unreachable!(),
    }
}

/// The place of the bound whose remainder the hash leaves.
pub(crate) fn remainder_child(bounds: &[Bound], hash: u64) -> Option<usize>
    requires hashes { IsHashLevel bounds.now }
    requires ordered { IsInPlainOrder bounds.now }
    requires filled { All (λ b. is_filled b ≡ true) bounds.now }
    ensures { result ≡ position (accepts_spec.leaves_remainder hash) bounds.now }
{
    let mut from = 0;
    while from < bounds.len() {
        let modulus = modulus_at(bounds, from);
        if let Some(child) = find_remainder(bounds, from, modulus, hash % modulus as u64) {
            return Some(child);
        }
        from = place_of(bounds, modulus, modulus as u64);
    }
    None
}
