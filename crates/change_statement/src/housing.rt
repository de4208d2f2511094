//! The leaves where the rows of an UPDATE go.

ghost use Rattle.std.specs.Prelude.{◌≡◌, true, OnOk};
ghost use Rattle.row_change.specs.Targets.{HasWay};
ghost use Rattle.statement_steps.specs.Gathered.{found_of};
ghost use Rattle.change_statement.specs.Housed.{goes_into, IsHousing};
ghost use Rattle.change_statement.specs.Running.{MayRun};

use pg_values::{LeafId, NoMemory};
use row_change::{Holders, Target, target_of};
use statement_steps::{Attempt, Gathered};
use stores::{Stores, trees_are_together};

/// The tables of the tree by their leaves, and the target of the leaf where the last row went. Rows are taken leaf
/// after leaf, and most stay in theirs: the CHECKs along the path are then looked up once, and not for each row.
#[derive(Drop)]
pub(crate) struct Housing {
    pub holders: Holders,
    pub last: Option<Target>,
}

fn is_last(last: &Option<Target>, leaf: LeafId) -> bool
    ensures { result ≡ goes_into leaf last.now }
{
    match last {
        Some(target) => target.leaf.number == leaf.number,
        None => false,
    }
}

/// The target of the leaf is made, unless it is the last one. It stays true from row to row: while the statement
/// runs, rows change, and the catalogue does not.
pub(crate) fn keep_target(
    attempt: &Attempt<'_>,
    stores: &Stores,
    gathered: &Gathered,
    housing: &mut Housing,
    leaf: LeafId,
) -> Result<(), NoMemory>
    requires may { MayRun (found_of gathered.now) stores.now attempt.now.caller }
    requires way { HasWay (found_of gathered.now).tree leaf }
    requires housing { IsHousing stores.now attempt.now.caller.session (found_of gathered.now).tree housing.old }
    ensures housing { OnOk result (IsHousing stores.now attempt.now.caller.session (found_of gathered.now).tree housing.new) }
    ensures kept { OnOk result (goes_into leaf housing.new.last ≡ true) }
{
    let session = attempt.caller.session;
    if is_last(&housing.last, leaf) {
        return Ok(());
    }
    trees_are_together();
    let Some(table) = housing.holders.of(leaf) else {
        unreachable!()
    };
    let catalog = &stores.catalog;
    let target = target_of(attempt.alloc, catalog, &stores.txs, session, leaf, table)?;
    housing.last = Some(target);
    Ok(())
}
