ghost use Rattle.std.specs.Prelude.{◌≡◌, min};
ghost use Rattle.row_router.specs.Trees as trees;
ghost use Rattle.row_router.specs.Seen.{seen};

use crate::{Shape, Tree};

/// How many tables stand on the longest path down a tree, or `most` where there are more.
pub fn height_up_to(tree: &Tree, most: usize) -> usize
    ensures { result ≡ min most (trees.height (seen tree.now)) }
{
    if most == 0 {
        return 0;
    }
    match &tree.shape {
        Shape::Leaf(_) => 1,
        Shape::Level(_, _, children) => {
            let mut below = 0;
            for child in children.as_slice() {
                below = below.max(height_up_to(child, most - 1));
            }
            below + 1
        }
    }
}
