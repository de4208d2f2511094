ghost use Rattle.std.specs.Prelude.{◌≡◌, ℕ, ◌+◌, ◌*◌, ◌≤◌, ◌<◌, ◌==◌, ◌&&◌, ◌||◌, not, None, List, Option, length, slice_index_or, vec_capacity};
ghost use Rattle.pg_values.specs.Modes.{same_mode};
ghost use Rattle.pg_values.specs.Sets.{has, empty};
ghost use Rattle.pg_values.specs.declared.session_set.SessionSet.{SessionSet};
ghost use Rattle.pg_values.specs.declared.lock_mode.LockMode.{LockMode as Mode};
ghost use Rattle.history.specs.Locks.{is_lock, after_end, after_snapshot};
ghost use Rattle.lock_table.specs.Kept.{held_at, is_empty_at, AreTaken, IsHeldThere};
ghost use Rattle.lock_table.specs.Stands.{IsPlaced};

use crate::causes::{nth_set, place};
use history::{WaitOn, Wanted};
use pg_values::{LockMode, SessionSet};

// The sets reach beyond the place, with empty ones where they did not.
#[inline(always)]
fn reach(held: &mut Vec<SessionSet>, place: usize)
    requires { place < vec_capacity held.old }
    ensures beyond { place < length held.new.items }
    ensures same { (k : ℕ) → slice_index_or held.new.items k empty ≡ slice_index_or held.old.items k empty }
    ensures room { vec_capacity held.old ≤ vec_capacity held.new }
{
    if held.len() <= place {
        held.resize(place + 1, SessionSet::empty()).unwrap();
    }
}

// Whether somebody holds the mode of this place.
#[inline(always)]
fn is_taken(held: &[SessionSet], place: usize) -> bool
    ensures { result ≡ not (is_empty_at held.now place) }
{
    !nth_set(held, place).is_empty()
}

// The place is listed, where nobody holds its mode yet.
#[inline(always)]
fn list_place(held: &[SessionSet], taken: &mut Vec<usize>, place: usize)
    requires room { place < vec_capacity taken.old }
    requires taken { AreTaken held.now taken.old.items (vec_capacity taken.old) }
    ensures taken { (new : List SessionSet) (s : ℕ) → IsHeldThere held.now new place s → AreTaken new taken.new.items (vec_capacity taken.new) }
    ensures places { vec_capacity taken.old ≤ vec_capacity taken.new }
{
    if !is_taken(held, place) {
        taken.push(place).unwrap();
    }
}

// The session gets the mode on the table.
#[inline(always)]
pub(crate) fn put(
    held: &mut Vec<SessionSet>,
    taken: &mut Vec<usize>,
    session: u32,
    table: u32,
    mode: LockMode,
)
    requires session { session < 128 }
    requires known { 8 * table + 7 < vec_capacity held.old }
    requires place { 8 * table + 7 < vec_capacity taken.old }
    requires taken { AreTaken held.old.items taken.old.items (vec_capacity taken.old) }
    ensures holds { (s t : ℕ) (m : Mode) → has (held_at held.new.items t m) s
        ≡ (((session == s) && ((table == t) && same_mode mode m)) || has (held_at held.old.items t m) s) }
    ensures room { vec_capacity held.old ≤ vec_capacity held.new }
    ensures taken { AreTaken held.new.items taken.new.items (vec_capacity taken.new) }
    ensures places { vec_capacity taken.old ≤ vec_capacity taken.new }
{
    let at = place(table, mode);
    reach(held, at);
    list_place(held, taken, at);
    held[at] = held[at].with(session);
}

// The session gets the lock that it waited for.
#[inline(always)]
pub(crate) fn grant(
    held: &mut Vec<SessionSet>,
    taken: &mut Vec<usize>,
    session: u32,
    want: Option<Wanted>,
)
    requires session { session < 128 }
    requires known { IsPlaced (vec_capacity held.old) want }
    requires place { IsPlaced (vec_capacity taken.old) want }
    requires taken { AreTaken held.old.items taken.old.items (vec_capacity taken.old) }
    ensures holds { (s t : ℕ) (m : Mode) → has (held_at held.new.items t m) s
        ≡ (((session == s) && is_lock t m want) || has (held_at held.old.items t m) s) }
    ensures room { vec_capacity held.old ≤ vec_capacity held.new }
    ensures taken { AreTaken held.new.items taken.new.items (vec_capacity taken.new) }
    ensures places { vec_capacity taken.old ≤ vec_capacity taken.new }
{
    if let Some(Wanted::Lock { table, mode }) = want {
        put(held, taken, session, table.number, mode);
    }
}

// The session gives up its locks. Only the places at which somebody holds one are looked at.
pub(crate) fn clear_held(held: &mut Vec<SessionSet>, taken: &mut Vec<usize>, session: u32)
    requires session { session < 128 }
    requires taken { AreTaken held.old.items taken.old.items (vec_capacity taken.old) }
    ensures holds { (s t : ℕ) (m : Mode) → has (held_at held.new.items t m) s
        ≡ (not (session == s) && has (held_at held.old.items t m) s) }
    ensures room { vec_capacity held.new ≡ vec_capacity held.old }
    ensures taken { AreTaken held.new.items taken.new.items (vec_capacity taken.new) }
    ensures places { vec_capacity taken.new ≡ vec_capacity taken.old }
{
    for place in taken.iter() {
        held[*place] = held[*place].without(session);
    }
    taken.retain(|place| is_taken(held, *place));
}

// Nobody waits for the end of the session's transaction any more.
pub(crate) fn clear_ends(waits: &mut Vec<Option<Wanted>>, session: u32)
    requires { session < 128 }
    ensures waits { (s : ℕ) → slice_index_or waits.new.items s None ≡ after_end session (slice_index_or waits.old.items s None) }
    ensures len { length waits.new.items ≡ length waits.old.items }
{
    for i in 0..waits.len() {
        waits[i] = end_left(waits[i], session);
    }
}

// Nobody waits for the session's snapshot any more.
pub(crate) fn clear_snapshots(waits: &mut Vec<Option<Wanted>>, session: u32)
    requires { session < 128 }
    ensures waits { (s : ℕ) → slice_index_or waits.new.items s None ≡ after_snapshot session (slice_index_or waits.old.items s None) }
    ensures len { length waits.new.items ≡ length waits.old.items }
{
    for i in 0..waits.len() {
        waits[i] = snapshot_left(waits[i], session);
    }
}

// What is left of a wait when the session's transaction has ended.
fn end_left(want: Option<Wanted>, session: u32) -> Option<Wanted>
    requires { session < 128 }
    ensures { result ≡ after_end session want }
{
    match want {
        Some(Wanted::Others(WaitOn::Ends(of))) => {
            Some(Wanted::Others(WaitOn::Ends(of.without(session))))
        }
        Some(Wanted::Others(WaitOn::Snapshots(of))) => {
            Some(Wanted::Others(WaitOn::Snapshots(of)))
        }
        Some(Wanted::Lock { table, mode }) => Some(Wanted::Lock { table, mode }),
        None => None,
    }
}

// What is left of a wait when the session's snapshot has gone.
fn snapshot_left(want: Option<Wanted>, session: u32) -> Option<Wanted>
    requires { session < 128 }
    ensures { result ≡ after_snapshot session want }
{
    match want {
        Some(Wanted::Others(WaitOn::Snapshots(of))) => {
            Some(Wanted::Others(WaitOn::Snapshots(of.without(session))))
        }
        Some(Wanted::Others(WaitOn::Ends(of))) => Some(Wanted::Others(WaitOn::Ends(of))),
        Some(Wanted::Lock { table, mode }) => Some(Wanted::Lock { table, mode }),
        None => None,
    }
}
