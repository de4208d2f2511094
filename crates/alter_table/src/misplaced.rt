ghost use Rattle.std.specs.Prelude.{◌≡◌, IfOk};
ghost use Rattle.alter_table.specs.Misplaced as places;

use pg_values::{Fault, NoMemory};
use refusals::detach_inside_a_transaction;
use std::alloc::Global;

/// Why DETACH CONCURRENTLY may not stand there: in an explicit transaction, or beside another statement of
/// its block (25001).
pub fn detach_misplaced(
    alloc: Global,
    alone: bool,
    explicit: bool,
) -> Result<Option<Fault>, NoMemory>
    ensures { IfOk result (λ f. f ≡ places.detach_misplaced alone explicit) }
{
    if explicit || !alone {
        Ok(Some(detach_inside_a_transaction(alloc)?))
    } else {
        Ok(None)
    }
}
