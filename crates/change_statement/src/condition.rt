ghost use Rattle.std.specs.Prelude.{◌≡◌};
ghost use Rattle.cond_logic.specs.Trees.{cond_tree};
ghost use Rattle.cond_logic.specs.Asked.{maybe_cond};
ghost use Rattle.change_statement.specs.Targets as targets;

use cond_logic::{Binding, Cond, Truth3, eval};
use pg_values::Row;

fn is_true(cond: &Cond, row: &Row) -> bool
    ensures { result ≡ targets.takes (Some (cond_tree cond.now)) row.now }
{
    let binding = Binding::new(&[]).with(0, row);
    matches!(eval(cond, &binding), Truth3::Yes)
}

/// Whether the condition takes the row.
pub(crate) fn takes(condition: &Option<Cond>, row: &Row) -> bool
    ensures { result ≡ targets.takes (maybe_cond condition.now) row.now }
{
    match condition {
        None => true,
        Some(cond) => is_true(cond, row),
    }
}
