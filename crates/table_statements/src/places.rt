ghost use Rattle.std.specs.Prelude.{◌≡◌};
ghost use Rattle.refusals.specs.Refusals as refusals;
ghost use Rattle.table_statements.specs.Places as places;

use pg_values::Fault;
use refusals::lock_outside_a_transaction;
use std::alloc::Global;

/// Why LOCK may not stand there: as the one statement of its block it stands in an explicit transaction, or
/// is 25P01.
pub fn lock_misplaced(alloc: Global, alone: bool, explicit: bool) -> Option<Fault>
    ensures { result ≡ places.lock_misplaced alone explicit }
{
    if alone && !explicit {
        Some(lock_outside_a_transaction(alloc))
    } else {
        None
    }
}
