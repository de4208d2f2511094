ghost use Rattle.std.specs.Prelude.{◌≡◌, ℕ, ◌+◌, ◌*◌, ◌≤◌, ◌<◌, ◌==◌, ◌&&◌, ◌||◌, true, false, List, Option, Some, None, IfSome, length, slice_index_or, nat_eq};
ghost use Rattle.std.specs.List.{list_any};
ghost use Rattle.pg_values.specs.Modes.{rank};
ghost use Rattle.pg_values.specs.Sets.{has, empty};
ghost use Rattle.pg_values.specs.declared.session_set.SessionSet.{SessionSet};
ghost use Rattle.history.specs.declared.wait.Wanted.{Wanted};
ghost use Rattle.history.specs.declared.wait.Wanted.TheVariants.{Lock};
ghost use Rattle.history.specs.Locks.{LockEvents, wanted, holds_one_of, holds_against};
ghost use Rattle.history.specs.Waits.{wants_against, stands_against, is_cause, waits_for, ready};
ghost use Rattle.lock_table.specs.Answers.{unopposed};
ghost use Rattle.lock_table.specs.Kept.{held_at};
ghost use Rattle.lock_table.specs.Stands.{Tells};

use history::{WaitOn, Wanted};
use pg_values::{LockMode, SessionSet, TableNo};

// The place of those who hold the mode on the table.
#[inline(always)]
pub(crate) fn place(table: u32, mode: LockMode) -> usize
    ensures { result ≡ 8 * table + rank mode }
{
    8 * table as usize + mode.rank()
}

// The set at the place, and past the end the empty one.
#[inline(always)]
pub(crate) fn nth_set(sets: &[SessionSet], place: usize) -> SessionSet
    ensures { result ≡ slice_index_or sets.now place empty }
{
    match sets.get(place) {
        Some(set) => *set,
        None => SessionSet::empty(),
    }
}

// Who holds the mode on the table.
#[inline(always)]
pub(crate) fn set_at(held: &[SessionSet], table: u32, mode: LockMode) -> SessionSet
    ensures { result ≡ held_at held.now table mode }
{
    nth_set(held, place(table, mode))
}

// Who holds one of the modes on the table.
#[inline(always)]
pub(crate) fn holding(held: &[SessionSet], table: u32, modes: &[LockMode]) -> SessionSet
    ensures { (h : LockEvents) (ws : List (Option Wanted)) (q : List ℕ) → Tells held.now ws q h →
        (y : ℕ) → has result y ≡ holds_one_of h y table modes.now }
{
    let mut found = SessionSet::empty();
    for mode in modes {
        found = found.union(set_at(held, table, *mode));
    }
    found
}

// Who holds a mode on the table that conflicts with this one.
#[inline(always)]
fn against(held: &[SessionSet], table: u32, mode: LockMode) -> SessionSet
    ensures { (h : LockEvents) (ws : List (Option Wanted)) (q : List ℕ) → Tells held.now ws q h →
        (y : ℕ) → has result y ≡ holds_against h y table mode }
{
    holding(held, table, mode.conflicting())
}

// What the session waits for.
pub(crate) fn want_of(waits: &[Option<Wanted>], session: u32) -> Option<Wanted>
    ensures { result ≡ slice_index_or waits.now session None }
{
    match waits.get(session as usize) {
        Some(want) => *want,
        None => None,
    }
}

// Whether a wait for a mode on some table stands before the request of x.
fn is_first(
    held: &[SessionSet],
    x: u32,
    table: u32,
    mode: LockMode,
    other: TableNo,
    waited: LockMode,
) -> bool
    ensures { (h : LockEvents) (ws : List (Option Wanted)) (q : List ℕ) → Tells held.now ws q h →
        result ≡ wants_against h x table mode (Some (Lock other waited)) }
{
    other.number == table && (waited.conflicts(mode) && !against(held, table, waited).has(x))
}

// Whether a wait stands before the request of x for the mode.
fn is_against(held: &[SessionSet], x: u32, table: u32, mode: LockMode, want: Wanted) -> bool
    ensures { (h : LockEvents) (ws : List (Option Wanted)) (q : List ℕ) → Tells held.now ws q h →
        result ≡ wants_against h x table mode (Some want) }
{
    match want {
        Wanted::Lock {
            table: other,
            mode: waited,
        } => is_first(held, x, table, mode, other, waited),
        Wanted::Others(_) => false,
    }
}

// The same of a session that may wait.
fn is_any_against(
    held: &[SessionSet],
    x: u32,
    table: u32,
    mode: LockMode,
    want: Option<Wanted>,
) -> bool
    ensures { (h : LockEvents) (ws : List (Option Wanted)) (q : List ℕ) → Tells held.now ws q h →
        result ≡ wants_against h x table mode want }
{
    match want {
        Some(want) => is_against(held, x, table, mode, want),
        None => false,
    }
}

// Whether y waits for what stands before the request of x.
fn stands_before(
    held: &[SessionSet],
    waits: &[Option<Wanted>],
    x: u32,
    table: u32,
    mode: LockMode,
    y: u32,
) -> bool
    ensures is { (h : LockEvents) (q : List ℕ) → Tells held.now waits.now q h →
        result ≡ wants_against h x table mode (wanted h y) }
    ensures known { result ≡ true → y < length waits.now }
{
    match waits.get(y as usize) {
        Some(want) => is_any_against(held, x, table, mode, *want),
        None => false,
    }
}

// What was found, with y where its wait stands before the request of x.
fn joined(
    found: SessionSet,
    held: &[SessionSet],
    waits: &[Option<Wanted>],
    x: u32,
    table: u32,
    mode: LockMode,
    y: u32,
) -> SessionSet
    requires { length waits.now ≤ 65 }
    ensures { (h : LockEvents) (q : List ℕ) → Tells held.now waits.now q h → (z : ℕ) →
        has result z ≡ (has found z || ((z == y) && wants_against h x table mode (wanted h z))) }
{
    if stands_before(held, waits, x, table, mode, y) {
        found.with(y)
    } else {
        found
    }
}

// Who stands against the lock that x wants.
fn standing(
    held: &[SessionSet],
    waits: &[Option<Wanted>],
    queue: &[u32],
    x: u32,
    table: u32,
    mode: LockMode,
) -> SessionSet
    requires x { x < 128 }
    requires few { length waits.now ≤ 65 }
    ensures { (h : LockEvents) → Tells held.now waits.now queue.now h → (y : ℕ) → has result y ≡ stands_against h x table mode y }
{
    let mut found = against(held, table, mode);
    for y in queue {
        if *y == x {
            return found.without(x);
        }
        found = joined(found, held, waits, x, table, mode, *y);
    }
    found.without(x)
}

// Whether nobody waits, and nobody holds a mode on the table that conflicts with this one.
#[inline(always)]
pub(crate) fn is_unopposed(held: &[SessionSet], queue: &[u32], table: u32, mode: LockMode) -> bool
    ensures is { (h : LockEvents) (ws : List (Option Wanted)) → Tells held.now ws queue.now h → result ≡ unopposed h table mode }
    ensures none { result ≡ true → (h : LockEvents) (ws : List (Option Wanted)) → Tells held.now ws queue.now h →
        (x y : ℕ) → stands_against h x table mode y ≡ false }
{
    queue.is_empty() && against(held, table, mode).is_empty()
}

// The causes that x has to wait for what it wants.
pub(crate) fn causes(
    held: &[SessionSet],
    waits: &[Option<Wanted>],
    queue: &[u32],
    x: u32,
    want: Wanted,
) -> SessionSet
    requires x { x < 128 }
    requires few { length waits.now ≤ 65 }
    ensures { (h : LockEvents) → Tells held.now waits.now queue.now h → (y : ℕ) → has result y ≡ is_cause h x want y }
{
    match want {
        Wanted::Lock { table, mode } => {
            if set_at(held, table.number, mode).has(x) {
                SessionSet::empty()
            } else {
                standing(held, waits, queue, x, table.number, mode)
            }
        }
        Wanted::Others(WaitOn::Ends(of)) => of,
        Wanted::Others(WaitOn::Snapshots(of)) => of,
    }
}

// Whom the session waits for.
pub(crate) fn wait_causes(
    held: &[SessionSet],
    waits: &[Option<Wanted>],
    queue: &[u32],
    x: u32,
) -> SessionSet
    requires { length waits.now ≤ 65 }
    ensures { (h : LockEvents) → Tells held.now waits.now queue.now h → (y : ℕ) → has result y ≡ waits_for h x y }
{
    match waits.get(x as usize) {
        Some(Some(want)) => causes(held, waits, queue, x, *want),
        Some(None) => SessionSet::empty(),
        None => SessionSet::empty(),
    }
}

// The oldest wait whose causes have gone.
pub(crate) fn first_ready(
    held: &[SessionSet],
    waits: &[Option<Wanted>],
    queue: &[u32],
) -> Option<u32>
    requires few { length waits.now ≤ 65 }
    ensures is { (h : LockEvents) → Tells held.now waits.now queue.now h → result ≡ ready h }
    ensures queued { IfSome result (λ s. list_any (nat_eq s) queue.now ≡ true) }
{
    for x in queue {
        if wait_causes(held, waits, queue, *x).is_empty() {
            return Some(*x);
        }
    }
    None
}
