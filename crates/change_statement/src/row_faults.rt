ghost use Rattle.std.specs.Prelude.{◌≡◌, IfOk};
ghost use Rattle.change_statement.specs.Faults as faults;

use crate::Conflict;
use pg_values::{Fault, NoMemory};
use refusals::{row_was_changed, row_was_moved};
use std::alloc::Global;

impl Conflict {
    /// The session that was there before.
    pub fn session(self) -> u32
        ensures { result ≡ faults.conflict_session self }
    {
        match self {
            Conflict::Changed(session) => session,
            Conflict::Moved(session) => session,
        }
    }
}

/// `row of <leaf> was changed by session <s>`, or `moved`, by the names of the leaf and the session.
pub fn could_not_serialize(
    alloc: Global,
    conflict: Conflict,
    leaf: &[u8],
    session: &[u8],
) -> Result<Fault, NoMemory>
    ensures { IfOk result (λ f. f ≡ faults.could_not_serialize conflict leaf.now session.now) }
{
    match conflict {
        Conflict::Changed(_) => row_was_changed(alloc, leaf, session),
        Conflict::Moved(_) => row_was_moved(alloc, leaf, session),
    }
}
