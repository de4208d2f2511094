//! Where a statement stands that waits for a row.

ghost use Rattle.std.specs.Prelude.{◌≡◌, ◌<◌, IfOk, IfSome, Some, None, IsSome, slice_index_or, if◌then◌else◌};
ghost use Rattle.history.specs.History.{History};
ghost use Rattle.stores.specs.Stand.{Stands};
ghost use Rattle.statement_steps.specs.Attempts.{MayAttempt};
ghost use Rattle.change_statement.specs.Standing as standing;

use pg_values::NoMemory;
use statement_steps::{Caller, Rest, RestOfRows, TargetRow};
use std::alloc::Global;
use stores::Stores;

// The rows are those of the session's transaction.
fn is_own(stores: &Stores, caller: Caller, rest: &RestOfRows) -> bool
    requires { MayAttempt stores.now caller }
    ensures { (h : History) → Stands stores.now h → standing.own_left h caller rest.now ≡ (if result then Some rest.now else None) }
{
    let Some(tx) = stores.txs.open_of(caller.session) else {
        unreachable!()
    };
    rest.by().number == tx.number
}

/// The rows that the statement has left, where it goes on before them.
pub(crate) fn left_of(stores: &Stores, caller: Caller, rest: Option<Rest>) -> Option<RestOfRows>
    requires { MayAttempt stores.now caller }
    ensures { (h : History) → Stands stores.now h → result ≡ standing.left_of h caller rest }
{
    match rest {
        Some(Rest::Rows(rest)) => {
            if is_own(stores, caller, &rest) {
                Some(rest)
            } else {
                None
            }
        }
        Some(Rest::Detach(_)) | None => None,
    }
}

/// These rows, for a statement that waits.
pub(crate) fn copied(alloc: Global, left: &[TargetRow]) -> Result<Vec<TargetRow>, NoMemory>
    ensures { IfOk result (λ rows. rows.items ≡ left.now) }
{
    let mut rows = Vec::new(alloc);
    for target in left {
        rows.push(*target)?;
    }
    Ok(rows)
}
