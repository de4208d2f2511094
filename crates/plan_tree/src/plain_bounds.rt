ghost use Rattle.std.specs.Prelude.{◌≡◌, IfOk, is_some};
ghost use Rattle.row_router.specs.Seen.{seen};
ghost use Rattle.plan_tree.specs.Kept.{is_plain};

use crate::PlainSet;
use bound_forms::Bound;
use part_bounds::make_set;
use pg_values::{NoMemory, ValueKey};
use row_router::{Shape, Tree};
use std::alloc::Global;

// A default alone.
fn one_default(alloc: Global) -> Result<PlainSet, NoMemory> {
    let mut bounds = Vec::new(alloc);
    bounds.push(Bound::Default)?;
    let set = make_set(alloc, bounds, ValueKey)?;
    Ok(PlainSet { set })
}

/// The bounds of a table that has no partitions.
pub(crate) fn plain_of(alloc: Global, tree: &Tree) -> Result<Option<PlainSet>, NoMemory>
    ensures { IfOk result (λ plain. is_plain (seen tree.now) ≡ is_some plain) }
{
    match &tree.shape {
        Shape::Leaf(_) => Ok(Some(one_default(alloc)?)),
        Shape::Level(_, _, _) => Ok(None),
    }
}
