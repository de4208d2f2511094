ghost use Rattle.std.specs.Prelude.{◌≡◌, ◌≤◌, [], IfOk, length};
ghost use Rattle.stores.specs.Stand.{Stands};

use lock_table::LockTable;
use part_catalog::Catalog;
use pg_values::NoMemory;
use row_store::RowStore;
use std::alloc::Global;
use tx_table::TxTable;

/// The stores of a run.
#[derive(Drop)]
pub struct Stores {
    pub txs: TxTable,
    pub rows: RowStore,
    pub catalog: Catalog,
    pub locks: LockTable,
}

impl Stores {
    /// Stores for so many sessions and for locks on so many tables, in which nothing has happened.
    pub fn new(alloc: Global, sessions: u32, tables: u32) -> Result<Self, NoMemory>
        requires { sessions ≤ 65 }
        ensures stands { IfOk result (λ stores. Stands stores []) }
        ensures sessions { IfOk result (λ stores. (length stores.txs.current ≡ sessions) × (length stores.locks.wants ≡ sessions)) }
        ensures tables { IfOk result (λ stores. stores.locks.tables ≡ tables) }
    {
        Ok(Stores {
            txs: TxTable::new(alloc, sessions)?,
            rows: RowStore::new(alloc),
            catalog: Catalog::new(alloc),
            locks: LockTable::new(alloc, sessions, tables)?,
        })
    }
}
