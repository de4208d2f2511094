ghost use Rattle.std.specs.Prelude.{◌≡◌, ℕ, ◌+◌, ◌≤◌, ◌<◌, ◌==◌, ◌&&◌, ◌||◌, not, Bool, true, false, List, IfSome, None, length};
ghost use Rattle.pg_values.specs.Lists.{listed};
ghost use Rattle.pg_values.specs.Sets.{has, nobody};
ghost use Rattle.history.specs.Locks.{LockEvents};
ghost use Rattle.history.specs.Waits.{waits_for, IsCycle, IsLeastCycle};
ghost use Rattle.lock_table.specs.Graph.{edge, leads, IsShortest, AreLevels};
ghost use Rattle.lock_table.specs.Stands.{Tells};

use crate::causes::{nth_set, wait_causes};
use history::Wanted;
use pg_values::{SessionList, SessionSet};

// A set for each session, with nobody in it.
fn no_sets() -> [SessionSet; 65]
    ensures { length result ≡ 65 }
{
    [SessionSet::empty(); 65]
}

// Row x has those for whom x waits.
pub(crate) fn rows_of(
    held: &[SessionSet],
    waits: &[Option<Wanted>],
    queue: &[u32],
) -> [SessionSet; 65]
    requires { length waits.now ≤ 65 }
    ensures is { (h : LockEvents) → Tells held.now waits.now queue.now h → (x y : ℕ) → edge result x y ≡ waits_for h x y }
    ensures len { length result ≡ 65 }
{
    let mut rows = no_sets();
    for x in 0..65u32 {
        rows[x as usize] = wait_causes(held, waits, queue, x);
    }
    rows
}

fn row_of(rows: &[SessionSet], x: u32) -> SessionSet
    ensures { (y : ℕ) → has result y ≡ edge rows.now x y }
{
    nth_set(rows, x as usize)
}

// With x where it waits for somebody in the set.
fn joined(found: SessionSet, rows: &[SessionSet], x: u32, set: SessionSet) -> SessionSet
    requires { x < 128 }
    ensures { (p : ℕ → Bool) → ((y : ℕ) → has set y ≡ p y) → (z : ℕ) →
        has result z ≡ ((z == x) && not (nobody (λ y. edge rows.now x y && p y)) || has found z) }
{
    if row_of(rows, x).meet(set).is_empty() {
        found
    } else {
        found.with(x)
    }
}

// Those who wait for somebody in the set.
fn behind(rows: &[SessionSet], set: SessionSet) -> SessionSet
    requires { length rows.now ≤ 65 }
    ensures { (p : ℕ → Bool) → ((y : ℕ) → has set y ≡ p y) → (x : ℕ) → has result x ≡ not (nobody (λ y. edge rows.now x y && p y)) }
{
    let mut found = SessionSet::empty();
    for x in 0..65u32 {
        found = joined(found, rows, x, set);
    }
    found
}

// Of those for whom x waits and who are in the set, the one with the least number.
fn least_next(rows: &[SessionSet], x: u32, set: SessionSet) -> Option<u32>
    ensures found { IfSome result (λ y. (edge rows.now x y ≡ true) × (has set y ≡ true) × ((z : ℕ) → z < y → (edge rows.now x z && has set z) ≡ false)) }
    ensures none { result ≡ None → (z : ℕ) → (edge rows.now x z && has set z) ≡ false }
{
    row_of(rows, x).meet(set).least()
}

// The cycle from s on, where so many levels of sessions, each one wait further from s, lead back to it.
fn walk(rows: &[SessionSet], s: u32, levels: &[SessionSet], count: usize) -> SessionList
    requires few { length rows.now ≤ 65 }
    requires s { s < 65 }
    requires count { count ≤ length levels.now }
    requires each { AreLevels rows.now s levels.now count }
    requires shortest { IsShortest rows.now s (count + 1) }
    ensures { IsLeastCycle (edge rows.now) s (listed result) }
{
    let mut list = SessionList::empty().with(s);
    let mut at = s;
    let mut left = count;
    while left > 0 {
        left -= 1;
        match least_next(rows, at, nth_set(levels, left)) {
            Some(y) => {
                list = list.with(y);
                at = y;
            }
            None => return list,
        }
    }
    list
}

// Of the shortest cycles of waits through s the least, with s first.
pub(crate) fn least_cycle(rows: &[SessionSet], s: u32) -> Option<SessionList>
    requires few { length rows.now ≤ 65 }
    requires s { s < 65 }
    ensures found { IfSome result (λ cycle. IsLeastCycle (edge rows.now) s (listed cycle)) }
    ensures none { result ≡ None → (cycle : List ℕ) → IsCycle (edge rows.now) s cycle → ⊥ }
{
    let mut levels = no_sets();
    let mut count = 0;
    let mut reached = SessionSet::empty();
    let mut level = SessionSet::empty().with(s);
    loop {
        level = behind(rows, level);
        if level.has(s) {
            return Some(walk(rows, s, &levels, count));
        }
        if level.is_within(reached) {
            return None;
        }
        levels[count] = level;
        count += 1;
        reached = reached.union(level);
    }
}
