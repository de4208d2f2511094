ghost use Rattle.std.specs.Prelude.{◌≡◌, ◌++◌, OnOk, OnErr};
ghost use Rattle.row_router.specs.Trees.{leaves};
ghost use Rattle.row_router.specs.Seen.{seen};

use crate::{Shape, Tree};
use pg_values::{LeafId, NoMemory};

fn put_leaves(tree: &Tree, out: &mut Vec<LeafId>) -> Result<(), NoMemory>
    ensures { OnOk result (out.new.items ≡ out.old.items ++ leaves (seen tree.now)) }
{
    match &tree.shape {
        Shape::Leaf(leaf) => {
            out.push(*leaf)?;
            Ok(())
        }
        Shape::Level(_, _, children) => {
            for child in children.as_slice() {
                put_leaves(child, out)?;
            }
            Ok(())
        }
    }
}

/// Puts the leaves of a tree behind the list, in plain order, all of them or none.
pub fn push_leaves(tree: &Tree, out: &mut Vec<LeafId>) -> Result<(), NoMemory>
    ensures ok { OnOk result (out.new.items ≡ out.old.items ++ leaves (seen tree.now)) }
    ensures err { OnErr result (out.new.items ≡ out.old.items) }
{
    let mut found = Vec::new(*out.allocator());
    put_leaves(tree, &mut found)?;
    out.extend_from_slice(&found)?;
    Ok(())
}
