//! Rows into a table that holds rows itself, which the statement names.

ghost use Rattle.std.specs.Prelude.{◌≡◌, ◌+◌, ◌<◌, ◌∷◌, [], IfOk, OnOk, map, length};
ghost use Rattle.history.specs.declared.catalogue.TableShape.TheVariants.{Leaf};
ghost use Rattle.history.specs.History.{History};
ghost use Rattle.part_catalog.specs.Stands.{CatalogueStands};
ghost use Rattle.statement_steps.specs.Attempts.{MayAttempt};
ghost use Rattle.statement_steps.specs.Steps.{IsStep};
ghost use Rattle.part_catalog.specs.Found.{made_at};
ghost use Rattle.insert_statement.specs.Inserted.{into_leaf};
ghost use Rattle.stores.specs.Stand.{AllStand, IsSound};
ghost use Rattle.insert_statement.specs.Asked.{IsOwnTarget};
ghost use Rattle.row_change.specs.Laws.{AreRowsOf};
ghost use Rattle.statement_steps.specs.Rights.{MayWrite};

use crate::storing::put_rows;
use pg_values::{LeafId, ListOf, NoMemory, Row, TableNo};
use row_change::{LeafList, Target};
use statement_steps::{Attempt, Stop};
use std::alloc::Global;
use std::slice::from_ref;
use stores::Stores;

// The leaf for each of the rows.
fn same_leaf(alloc: Global, leaf: LeafId, rows: &[Row]) -> Result<LeafList, NoMemory>
    ensures { IfOk result (λ leaves. leaves ≡ map (λ row. leaf) rows.now) }
{
    let mut leaves = LeafList::new(alloc);
    for _ in rows {
        leaves.push(leaf)?;
    }
    Ok(leaves)
}

fn target_of(
    attempt: &Attempt<'_>,
    stores: &Stores,
    table: TableNo,
    leaf: LeafId,
) -> Result<Target, NoMemory>
    requires sound { IsSound stores.now }
    requires known { table.number < length stores.now.catalog.tables }
    ensures { IfOk result (λ target. (h : History) → AllStand stores.now h → IsOwnTarget h attempt.now.caller.session table leaf target) }
{
    let path = stores.path(attempt.alloc, table, attempt.caller.session)?;
    Ok(Target {
        leaf,
        table,
        path: ListOf::from_vec(path),
        is_named: true,
    })
}

/// Stores the rows in the leaf of the table, each after the tests of the table and of those above it.
pub(crate) fn store_in_leaf(
    attempt: &Attempt<'_>,
    stores: &mut Stores,
    table: TableNo,
    leaf: LeafId,
    rows: Vec<Row>,
) -> Result<(), Stop>
    requires may { MayAttempt stores.old attempt.now.caller }
    requires known { table.number < length stores.old.catalog.tables }
    requires leaf { (h : History) → CatalogueStands stores.old.catalog h → (made_at h table.number).shape ≡ Leaf leaf }
    requires rows { AreRowsOf stores.old.catalog table rows.items }
    requires locked { MayWrite stores.old attempt.now.caller.session (table ∷ []) }
    ensures { IsStep (λ u. u) result stores.old stores.new attempt.now.caller (attempt.now.caller.cmd + 1) (into_leaf attempt.now.caller table.number leaf rows.items) }
{
    let target = target_of(attempt, stores, table, leaf)?;
    let leaves = same_leaf(attempt.alloc, leaf, &rows)?;
    put_rows(attempt, stores, from_ref(&target), leaves.as_slice(), rows)
}
