ghost use Rattle.std.specs.Prelude.{◌≡◌, ◌++◌, IfOk, OnOk};
ghost use Rattle.row_router.specs.Seen.{seen};
ghost use Rattle.legal_statements.specs.Below.{tables_in};
ghost use Rattle.statement_steps.specs.Below.{below};

use pg_values::{NoMemory, TableNo};
use row_router::{Shape, Tree};
use std::alloc::Global;

// Puts the tables of a tree behind the list, each before those below it.
fn push_tables(tree: &Tree, out: &mut Vec<TableNo>) -> Result<(), NoMemory>
    ensures { OnOk result (out.new.items ≡ out.old.items ++ tables_in (seen tree.now)) }
{
    out.push(tree.node.table)?;
    match &tree.shape {
        Shape::Leaf(_) => Ok(()),
        Shape::Level(_, _, children) => {
            for child in children.as_slice() {
                push_tables(child, out)?;
            }
            Ok(())
        }
    }
}

/// The tables under that of the tree, in plain order, each before those below it.
pub fn tables_below(alloc: Global, tree: &Tree) -> Result<Vec<TableNo>, NoMemory>
    ensures { IfOk result (λ tables. tables.items ≡ below (seen tree.now)) }
{
    let mut tables = Vec::new(alloc);
    match &tree.shape {
        Shape::Leaf(_) => Ok(tables),
        Shape::Level(_, _, children) => {
            for child in children.as_slice() {
                push_tables(child, &mut tables)?;
            }
            Ok(tables)
        }
    }
}
