//! What becomes of bounds that are added to a level, and of keys.

ghost use Rattle.std.specs.Prelude.{All, IfOk};
ghost use Rattle.bound_forms.specs.Bounds.{BoundsFit};
ghost use Rattle.bound_forms.specs.Levels.{IsKeyOfLevel, IsOfLevel};

use crate::bound_words::bound_of;
use crate::counted_keys::CountedKey;
use crate::keys::{WholeRow, key_of};
use crate::told_bounds::Told;
use bound_forms::{
    Bound, Key, Level, level_bounds_compare, level_bounds_have_a_kind, level_keys_fit, within,
};
use part_bounds::{
    BoundSet, accepts, add_bound, bound, find_child_uncounted, len, modulus_fault,
    overlap_uncounted,
};
use pg_values::{NoMemory, Refusal};
use std::alloc::Global;
use std::cell::Cell;
use table_binder::check_bound;

// Whether the bound lies inside the one at this place.
fn lies_inside(level: &Level, set: &BoundSet<CountedKey<'_>>, b: &Bound, at: usize) -> bool
    requires set { All (IsOfLevel level.now) set.now }
    requires bound { IsOfLevel level.now b.now }
{
    level_bounds_compare();
    level_bounds_have_a_kind();
    at < len(set) && within(b, bound(set, at))
}

// Adds the bound, unless it overlaps another.
fn add_suiting(
    level: &Level,
    set: &mut BoundSet<CountedKey<'_>>,
    b: Bound,
) -> Result<Told, NoMemory>
    requires set { All (IsOfLevel level.now) set.old }
    requires bound { IsOfLevel level.now b }
    requires fit { All (λ a. BoundsFit a b) set.old }
    ensures { IfOk result (λ told. All (IsOfLevel level.now) set.new) }
{
    level_bounds_have_a_kind();
    if let Some(at) = overlap_uncounted(set, &b) {
        if lies_inside(level, set, &b, at) {
            return Ok(Told::Inside(at));
        }
        return Ok(Told::Overlaps(at));
    }
    add_bound(set, b)?;
    Ok(Told::Added)
}

fn add_checked(
    level: &Level,
    set: &mut BoundSet<CountedKey<'_>>,
    b: Bound,
) -> Result<Told, NoMemory>
    requires set { All (IsOfLevel level.now) set.old }
    requires bound { IsOfLevel level.now b }
    ensures { IfOk result (λ told. All (IsOfLevel level.now) set.new) }
{
    level_bounds_have_a_kind();
    match modulus_fault(set, &b) {
        Some(modulus) => Ok(Told::Modulus(modulus)),
        None => add_suiting(level, set, b),
    }
}

/// Adds the bound of these words, where it can be added.
pub(crate) fn take_bound(
    alloc: Global,
    level: &Level,
    set: &mut BoundSet<CountedKey<'_>>,
    words: &str,
) -> Result<Told, NoMemory>
    requires { All (IsOfLevel level.now) set.old }
    ensures { IfOk result (λ told. All (IsOfLevel level.now) set.new) }
{
    let raw = bound_of(alloc, words)?;
    match check_bound(alloc, level, &raw) {
        Ok(b) => add_checked(level, set, b),
        Err(Refusal::Sql(fault)) => Ok(Told::Refused(fault)),
        Err(Refusal::NoMemory) => Err(NoMemory),
    }
}

// The first number that is a key. All keys have five digits, so that as texts they stand in the same order.
const FIRST: u64 = 10_000;

/// Adds ranges, each with one key, every second one.
pub(crate) fn add_ranges(
    alloc: Global,
    level: &Level,
    set: &mut BoundSet<CountedKey<'_>>,
    count: u32,
) -> Result<(), NoMemory>
    requires { All (IsOfLevel level.now) set.old }
    ensures { IfOk result (λ told. All (IsOfLevel level.now) set.new) }
{
    for k in 0..count as u64 {
        let lower = FIRST + 2 * k;
        let upper = lower + 1;
        let words = format!(in alloc; "FROM '{lower} TO '{upper}")?;
        take_bound(alloc, level, set, &words)?;
    }
    Ok(())
}

// The place of the partition that accepts a key of the level.
fn child_of<Q: Key>(level: &Level, set: &BoundSet<CountedKey<'_>>, key: &Q) -> Option<usize>
    requires set { All (IsOfLevel level.now) set.now }
    requires key { IsKeyOfLevel level.now (Q.values key.now) }
{
    level_keys_fit();
    find_child_uncounted(set, key)
}

// Whether the partition at the place accepts the key.
fn child_accepts<Q: Key>(
    level: &Level,
    set: &BoundSet<CountedKey<'_>>,
    child: usize,
    key: &Q,
) -> bool
    requires set { All (IsOfLevel level.now) set.now }
    requires key { IsKeyOfLevel level.now (Q.values key.now) }
{
    level_keys_fit();
    child < len(set) && accepts(set, child, key)
}

/// The place of the partition that accepts the key of these words, if one does and says so of itself.
pub(crate) fn find_key(
    alloc: Global,
    level: &Level,
    set: &BoundSet<CountedKey<'_>>,
    words: &str,
    out: &mut Vec<u8>,
) -> Result<(), NoMemory>
    requires { All (IsOfLevel level.now) set.now }
{
    let Ok(row) = key_of(alloc, level, words) else {
        return Err(NoMemory);
    };
    let key = WholeRow { row: &row };
    match child_of(level, set, &key) {
        Some(child) if child_accepts(level, set, child, &key) => {
            let text = format!(in alloc; "{child}")?;
            out.extend_from_slice(text.as_bytes())?;
        }
        _ => out.push(b'-')?,
    }
    Ok(())
}

// The place of the range that has the key of this number, among so many of `add_ranges`.
fn own_range(number: u64, ranges: usize) -> Option<usize> {
    let at = (number / 2) as usize;
    if number % 2 == 0 && at < ranges {
        Some(at)
    } else {
        None
    }
}

/// Looks up so many keys: how many come to their own range or to none, and how many comparisons one takes.
pub(crate) fn search_keys(
    alloc: Global,
    level: &Level,
    set: &BoundSet<CountedKey<'_>>,
    count: &Cell<u64>,
    keys: u32,
    out: &mut Vec<u8>,
) -> Result<(), NoMemory>
    requires { All (IsOfLevel level.now) set.now }
{
    let mut right = 0u64;
    let mut fewest = u64::MAX;
    let mut most = 0u64;
    for k in 0..keys as u64 {
        let number = FIRST + k;
        let words = format!(in alloc; "{number}")?;
        let Ok(row) = key_of(alloc, level, &words) else {
            return Err(NoMemory);
        };
        count.set(0);
        if child_of(level, set, &WholeRow { row: &row }) == own_range(k, len(set)) {
            right = right.saturating_add(1);
        }
        fewest = fewest.min(count.get());
        most = most.max(count.get());
    }
    let text = format!(in alloc; "{right} right, {fewest} to {most} comparisons")?;
    out.extend_from_slice(text.as_bytes())?;
    Ok(())
}
