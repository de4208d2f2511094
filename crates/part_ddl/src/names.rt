ghost use Rattle.std.specs.Prelude.{◌≡◌};
ghost use Rattle.pg_values.specs.Refusals.{IsAnswer, or_first};
ghost use Rattle.history.specs.History.{History};
ghost use Rattle.tx_table.specs.Stands.{TableStands};
ghost use Rattle.part_catalog.specs.Stands.{CatalogueStands};
ghost use Rattle.part_ddl.specs.Tables.{name_faults};

use part_catalog::Catalog;
use pg_values::Refusal;
use refusals::table_is_there;
use std::alloc::Global;
use tx_table::TxTable;

/// Whether a table of the name may be made: 42P07 where one is there for the session. That another
/// session's open transaction made one is told by `Catalog::name_taken_by`.
pub fn check_name(
    alloc: Global,
    catalog: &Catalog,
    txs: &TxTable,
    session: u32,
    name: &[u8],
) -> Result<(), Refusal>
    ensures { (h : History) → TableStands txs.now h → CatalogueStands catalog.now h → IsAnswer result (or_first (name_faults h session name.now) tt) }
{
    match catalog.resolve(txs, session, name) {
        Some(_) => Err(Refusal::Sql(table_is_there(alloc, name)?)),
        None => Ok(()),
    }
}
