ghost use Rattle.std.specs.Prelude.{◌≡◌, ◌≤◌, IfOk, length};
ghost use Rattle.tx_table.specs.Stands.{NumberIsSet};

use history::TxId;
use pg_values::NoMemory;
use std::alloc::Global;
use std::marker::Model;

/// What was committed at some place of the run, for a command of one transaction: the number of
/// the next transaction and those that ran there; the session, its transaction, and the number of
/// the command, which the caller sets.
#[derive(Debug, Drop)]
pub struct Snapshot {
    pub(crate) next: u64,
    pub(crate) running: Vec<u64>,
    pub(crate) session: u32,
    pub(crate) own: TxId,
    /// What commands of the own transaction with a smaller number did is seen.
    pub cmd: u32,
}

impl Model for Snapshot {
    ghost use Rattle.std.specs.Prelude.{◌≤◌, length};
    ghost use Rattle.tx_table.specs.Kept.{KeptSnapshot};

    ghost Value = { KeptSnapshot };

    ghost view = { λ s. record { next = s.next; running = s.running.items; session = s.session; tx = s.own.number; cmd = s.cmd } };

    ghost invariant = { λ s. length s.running.items ≤ 65 };
}

impl Snapshot {
    pub(crate) fn copy(&self, alloc: Global) -> Result<Self, NoMemory>
        ensures { IfOk result (λ copy. copy ≡ self.now) }
    {
        Ok(Snapshot {
            next: self.next,
            running: Vec::from_slice(alloc, &self.running)?,
            session: self.session,
            own: self.own,
            cmd: self.cmd,
        })
    }
}

/// A snapshot whose `cmd` was set stands for the same place, with that command number.
pub fn number_is_set()
    ensures { NumberIsSet }
{}
