ghost use Rattle.std.specs.Prelude.{◌≡◌, IfOk, Some};
ghost use Rattle.statement_runs.specs.Faults as faults;

use pg_values::{Fault, NoMemory};
use refusals::{left_out, syntax_error, too_many};
use sql_expressions::ParseRefused;
use std::alloc::Global;

/// The fault of a refusal.
pub(crate) fn fault(alloc: Global, refused: ParseRefused) -> Result<Fault, NoMemory>
    ensures { IfOk result (λ f. faults.fault refused ≡ Some f) }
{
    match refused {
        ParseRefused::Syntax { at } => syntax_error(alloc, at as u64),
        ParseRefused::Left { word } => left_out(alloc, word.as_bytes()),
        ParseRefused::TooMany { which } => too_many(alloc, which),
        ParseRefused::NoMemory => Err(NoMemory),
    }
}
