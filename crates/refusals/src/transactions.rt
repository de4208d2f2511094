//! What a transaction may not do, or was ended by (classes 25, 40 and 57).

ghost use Rattle.std.specs.Prelude.{◌≡◌, IfOk};
ghost use Rattle.refusals.specs.Refusals as refusals;

use crate::told::{alone, of_one, of_three};
use pg_values::{Args, Fault, NoMemory, SqlState};
use std::alloc::Global;

/// `concurrent detach inside a transaction`
pub fn detach_inside_a_transaction(alloc: Global) -> Result<Fault, NoMemory>
    ensures { IfOk result (λ f. f ≡ refusals.detach_inside_a_transaction) }
{
    of_one(alloc, *b"25001", b"concurrent detach inside a transaction")
}

/// `isolation level after a snapshot`
pub fn isolation_level_after_a_snapshot(alloc: Global) -> Result<Fault, NoMemory>
    ensures { IfOk result (λ f. f ≡ refusals.isolation_level_after_a_snapshot) }
{
    of_one(alloc, *b"25001", b"isolation level after a snapshot")
}

/// `LOCK TABLE outside a transaction`
pub fn lock_outside_a_transaction(alloc: Global) -> Fault
    ensures { result ≡ refusals.lock_outside_a_transaction }
{
    alone(alloc, *b"25P01")
}

/// `the transaction has failed`
pub fn the_transaction_has_failed(alloc: Global) -> Fault
    ensures { result ≡ refusals.the_transaction_has_failed }
{
    alone(alloc, *b"25P02")
}

/// `row of <leaf> was changed by session <s>`
pub fn row_was_changed(alloc: Global, leaf: &[u8], session: &[u8]) -> Result<Fault, NoMemory>
    ensures { IfOk result (λ f. f ≡ refusals.row_was_changed leaf.now session.now) }
{
    of_three(
        alloc,
        *b"40001",
        b"row of <leaf> was changed by session <s>",
        leaf,
        session,
    )
}

/// `row of <leaf> was moved by session <s>`
pub fn row_was_moved(alloc: Global, leaf: &[u8], session: &[u8]) -> Result<Fault, NoMemory>
    ensures { IfOk result (λ f. f ≡ refusals.row_was_moved leaf.now session.now) }
{
    of_three(
        alloc,
        *b"40001",
        b"row of <leaf> was moved by session <s>",
        leaf,
        session,
    )
}

/// `deadlock of <s>, <s>, ..`, by the names of the sessions.
pub fn deadlock(sessions: Args) -> Fault
    ensures { result ≡ refusals.deadlock sessions }
{
    Fault {
        code: SqlState { bytes: *b"40P01" },
        args: sessions,
    }
}

/// `statement cancelled`
pub fn statement_cancelled(alloc: Global) -> Fault
    ensures { result ≡ refusals.statement_cancelled }
{
    alone(alloc, *b"57014")
}
