//! The tables of a tree by their leaves.

ghost use Rattle.std.specs.Prelude.{◌≡◌, IfOk, OnOk};
ghost use Rattle.std.specs.Option.{option_or};
ghost use Rattle.pg_values.specs.declared.ids.LeafId.{LeafId};
ghost use Rattle.row_router.specs.Seen.{seen};
ghost use Rattle.row_change.specs.Places.{noted};
ghost use Rattle.row_change.specs.Targets.{held_by, holder_in, AreHolders};

use crate::by_leaf::ByLeaf;
use pg_values::{LeafId, NoMemory, TableNo};
use row_router::{Shape, Tree};
use std::alloc::Global;
use std::marker::Model;

/// The tables of leaves, seen as their list: each at the place of its leaf's number.
#[derive(Drop)]
pub struct Holders {
    tables: ByLeaf<TableNo>,
}

impl Model for Holders {
    ghost use Rattle.std.specs.Prelude.{List, Option};
    ghost use Rattle.pg_values.specs.declared.ids.TableNo.{TableNo};

    ghost Value = { List (Option TableNo) };

    ghost view = { λ h. h.tables.notes.items };
}

impl Holders {
    /// The table of a leaf.
    pub fn of(&self, leaf: LeafId) -> Option<TableNo>
        ensures { result ≡ held_by self.now leaf }
    {
        self.tables.of(leaf)
    }
}

// Notes the tables of the tree by their leaves, each leaf's first one.
#[tactic(auto, using(crate::proofs::TablesByLeaf::own_holder, crate::proofs::TablesByLeaf::holder_step))]
fn note_holders(tree: &Tree, holders: &mut ByLeaf<TableNo>) -> Result<(), NoMemory>
    ensures { OnOk result ((l : LeafId) → noted holders.new l ≡ option_or (noted holders.old l) (holder_in (seen tree.now) l)) }
{
    match &tree.shape {
        Shape::Leaf(own) => holders.note(*own, tree.node.table),
        Shape::Level(_, _, children) => {
            for child in children.as_slice() {
                note_holders(child, holders)?;
            }
            Ok(())
        }
    }
}

/// The table of each leaf of the tree.
pub fn holders_of(alloc: Global, tree: &Tree) -> Result<Holders, NoMemory>
    ensures { IfOk result (λ holders. AreHolders holders (seen tree.now)) }
{
    let mut tables = ByLeaf::new(alloc);
    note_holders(tree, &mut tables)?;
    Ok(Holders { tables })
}
