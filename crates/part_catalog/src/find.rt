//! Tables by their names.

ghost use Rattle.std.specs.Prelude.{◌≡◌, option_map};
ghost use Rattle.history.specs.History.{History, tx_events};
ghost use Rattle.tx_table.specs.Stands.{TableStands};
ghost use Rattle.part_catalog.specs.Stands.{CatalogueStands, made_elsewhere_by};
ghost use Rattle.part_catalog.specs.Found.{resolved, taken_by};

use crate::stored::StoredTable;
use crate::{Catalog, see};
use history::{Fate, TxId};
use pg_values::TableNo;
use tx_table::TxTable;

impl Catalog {
    /// The table of the name that is there for the session: the newest, if there were several.
    pub fn resolve(&self, txs: &TxTable, session: u32, name: &[u8]) -> Option<TableNo>
        ensures { (h : History) → TableStands txs.now h → CatalogueStands self.now h →
            option_map (λ t. t.number) result ≡ resolved h session name.now }
    {
        let mut next = self.names.newest(name);
        while let Some(number) = next {
            if see::is_there(txs, session, &self.tables[number as usize]) {
                return Some(TableNo { number });
            }
            next = self.names.earlier(number);
        }
        None
    }

    /// The other session whose open transaction made a table of the name.
    pub fn name_taken_by(&self, txs: &TxTable, session: u32, name: &[u8]) -> Option<u32>
        ensures { (h : History) → TableStands txs.now h → CatalogueStands self.now h →
            result ≡ taken_by h session name.now }
    {
        let mut next = self.names.newest(name);
        while let Some(number) = next {
            let stored = &self.tables[number as usize];
            if is_made_elsewhere(txs, session, stored) {
                return Some(txs.session_of(stored.table.by));
            }
            next = self.names.earlier(number);
        }
        None
    }
}

// Whether an open transaction of another session made the table.
fn is_made_elsewhere(txs: &TxTable, session: u32, x: &StoredTable) -> bool
    ensures { (h : History) → TableStands txs.now h → result ≡ made_elsewhere_by (tx_events h) session x.now }
{
    txs.fate(x.table.by) == Fate::Running && !see::is_own(txs.open_of(session), x.table.by)
}
