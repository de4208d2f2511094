ghost use Rattle.std.specs.Prelude.{◌≡◌, [], ◌∷◌, ◌++◌, OnOk, OnErr};
ghost use Rattle.history.specs.Thinned.{Thins};
ghost use Rattle.row_store.specs.Dead.{IsDeadAt};

use crate::dead::is_dead_at;
use crate::slot::{ShortId, Slot};
use pg_values::NoMemory;
use std::alloc::Global;
use std::marker::Model;
use tx_table::TxTable;

// Fewer versions are not gone through.
const FEW: usize = 64;

/// The numbers of the versions of a leaf, in order of birth, without some that are dead.
#[derive(Debug, Drop)]
pub struct Leaf {
    ids: Vec<ShortId>,
    // How many versions the last vacuum left.
    left: usize,
}

impl Model for Leaf {
    ghost use Rattle.std.specs.Prelude.{List};
    ghost use Rattle.pg_values.specs.declared.ids.RowId.{RowId};

    ghost Value = { List RowId };

    ghost view = { λ l. l.ids.items };
}

impl Leaf {
    pub fn new(alloc: Global) -> Self
        ensures { result ≡ [] }
    {
        Leaf {
            ids: Vec::new(alloc),
            left: 0,
        }
    }

    pub fn ids(&self) -> &[ShortId]
        ensures { result.now ≡ self.now }
    {
        &self.ids
    }

    pub fn push(&mut self, id: ShortId) -> Result<(), NoMemory>
        ensures ok { OnOk result (self.new ≡ self.old ++ id ∷ []) }
        ensures err { OnErr result (self.new ≡ self.old) }
    {
        self.ids.push(id)?;
        Ok(())
    }

    /// Leaves out dead versions, once there are more than twice as many versions as were left the last
    /// time.
    pub fn vacuum(&mut self, txs: &TxTable, versions: &[Slot])
        ensures { Thins (IsDeadAt txs.now versions.now) self.old self.new }
    {
        if self.ids.len() < FEW || self.ids.len() / 2 <= self.left {
            return;
        }
        self.ids.retain(|id| !is_dead_at(txs, versions, *id));
        self.left = self.ids.len();
    }
}
