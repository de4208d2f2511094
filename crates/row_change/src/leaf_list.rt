ghost use Rattle.std.specs.Prelude.{◌≡◌, ◌++◌, ◌∷◌, [], OnOk, OnErr};

use pg_values::{LeafId, NoMemory};
use std::alloc::Global;
use std::marker::Model;

/// The leaves of rows in the order of the rows, seen as their list.
#[derive(Debug, Drop)]
pub struct LeafList {
    leaves: Vec<LeafId>,
}

impl Model for LeafList {
    ghost use Rattle.std.specs.Prelude.{List};
    ghost use Rattle.pg_values.specs.declared.ids.LeafId.{LeafId};

    ghost Value = { List LeafId };

    ghost view = { λ l. l.leaves.items };
}

impl LeafList {
    pub fn new(alloc: Global) -> Self
        ensures { result ≡ [] }
    {
        LeafList {
            leaves: Vec::new(alloc),
        }
    }

    pub fn as_slice(&self) -> &[LeafId]
        ensures { result.now ≡ self.now }
    {
        &self.leaves
    }

    pub fn push(&mut self, leaf: LeafId) -> Result<(), NoMemory>
        ensures ok { OnOk result (self.new ≡ self.old ++ leaf ∷ []) }
        ensures err { OnErr result (self.new ≡ self.old) }
    {
        self.leaves.push(leaf)?;
        Ok(())
    }
}
