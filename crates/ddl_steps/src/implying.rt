//! A CHECK that says of rows all that a place asks of them.

ghost use Rattle.std.specs.Prelude.{◌≡◌, ◌<◌, All, IfOk, length, map};
ghost use Rattle.std.specs.List.{list_any};
ghost use Rattle.bound_forms.specs.Levels.{IsOfLevel};
ghost use Rattle.history.specs.History.{History};
ghost use Rattle.history.specs.Presence.{checks_of};
ghost use Rattle.tx_table.specs.Stands.{TableStands};
ghost use Rattle.row_router.specs.Histories.{kept_of};
ghost use Rattle.part_catalog.specs.Answers.{AreTogether};
ghost use Rattle.part_catalog.specs.Stands.{CatalogueStands};
ghost use Rattle.ddl_steps.specs.Checks as checks_spec;

use crate::equal_checks::same_level;
use bound_forms::{Bound, Level, level_bounds_compare, level_bounds_have_a_kind, within};
use history::KeptCheck;
use part_catalog::Catalog;
use pg_values::{NoMemory, TableNo};
use std::alloc::Global;
use tx_table::TxTable;

fn implies(level: &Level, bound: &Bound, check: &KeptCheck) -> bool
    requires own { IsOfLevel level.now bound.now }
    requires other { IsOfLevel check.now.level check.now.bound }
    ensures { result ≡ checks_spec.implies level.now bound.now check.now }
{
    level_bounds_compare();
    level_bounds_have_a_kind();
    same_level(level, &check.level) && within(&check.bound, bound)
}

fn has_implying(checks: &[KeptCheck], level: &Level, bound: &Bound) -> bool
    requires own { IsOfLevel level.now bound.now }
    requires all { All (λ k. IsOfLevel k.level k.bound) checks.now }
    ensures { result ≡ list_any (checks_spec.implies level.now bound.now) checks.now }
{
    for other in checks {
        if implies(level, bound, other) {
            return true;
        }
    }
    false
}

/// Whether the table keeps a CHECK that says all that a bound of the level does.
pub fn is_implied(
    alloc: Global,
    catalog: &Catalog,
    txs: &TxTable,
    session: u32,
    table: TableNo,
    level: &Level,
    bound: &Bound,
) -> Result<bool, NoMemory>
    requires table { table.number < length catalog.now.tables }
    requires siblings { AreTogether txs.now catalog.now session }
    requires own { IsOfLevel level.now bound.now }
    ensures { IfOk result (λ is. (h : History) → TableStands txs.now h → CatalogueStands catalog.now h →
        is ≡ list_any (checks_spec.implies level.now bound.now) (map kept_of (checks_of h session table.number))) }
{
    let checks = catalog.kept_checks(alloc, txs, table, session)?;
    Ok(has_implying(checks.as_slice(), level, bound))
}
