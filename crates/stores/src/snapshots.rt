ghost use Rattle.std.specs.Prelude.{◌≡◌, ◌++◌, ℕ, IfOk, OnOk, OnErr, None, slice_index_or};
ghost use Rattle.history.specs.Transactions.{IsPast};
ghost use Rattle.history.specs.Locks.{after_snapshot};
ghost use Rattle.history.specs.Dead.{MayRead};
ghost use Rattle.history.specs.History.{History, tx_events};
ghost use Rattle.tx_table.specs.Kept.{with_number, given_kept, after_hold};
ghost use Rattle.tx_table.specs.Stands.{TableStands, SnapshotStands};
ghost use Rattle.stores.specs.Events.{look_of, held, let_go};
ghost use Rattle.stores.specs.Good.{IsGood};
ghost use Rattle.stores.specs.Numbers.{IsAt};
ghost use Rattle.stores.specs.Stand.{Stands, Adds, AddsGood, HasSeat, HasOpen, IsSameSize};

use crate::Stores;
use pg_values::NoMemory;
use std::alloc::Global;
use tx_table::{Snapshot, number_is_set};

impl Stores {
    /// The snapshot that a statement of the session reads under, with the number of its command: the one
    /// that the session holds, else one that is taken now.
    pub fn look(&self, alloc: Global, session: u32, cmd: u32) -> Result<Snapshot, NoMemory>
        requires { HasOpen self.now session }
        ensures stands { IfOk result (λ snap. (h : History) → TableStands self.now.txs h → SnapshotStands snap (look_of h session cmd)) }
        ensures past { (h : History) → TableStands self.now.txs h → IsPast (look_of h session cmd).past (tx_events h) }
        ensures read { (h : History) → TableStands self.now.txs h → IsGood h → MayRead (look_of h session cmd) h }
        ensures kept { IfOk result (λ snap. snap ≡ with_number cmd (given_kept (slice_index_or self.now.txs.held session None) self.now.txs session)) }
    {
        number_is_set();
        let mut snap = self.txs.snapshot(alloc, session)?;
        snap.cmd = cmd;
        Ok(snap)
    }

    /// The session holds the snapshot under which its command reads, from now on, where it holds none.
    pub fn hold(&mut self, alloc: Global, session: u32, cmd: u32) -> Result<(), NoMemory>
        requires seat { HasSeat self.old session }
        requires open { HasOpen self.old session }
        ensures added { OnOk result (Adds self.old self.new (λ h. held h session cmd)) }
        ensures good { OnOk result ((h : History) → Stands self.old h → IsAt h session cmd → Stands self.new (held h session cmd ++ h)) }
        ensures rest { self.new ≡ record self.old { txs = self.new.txs } }
        ensures open { self.new.txs.current ≡ self.old.txs.current }
        ensures size { IsSameSize self.old self.new }
        ensures err { OnErr result (self.new ≡ self.old) }
    {
        if self.txs.held(session).is_none() {
            let snap = self.look(alloc, session, cmd)?;
            self.txs.hold(session, snap);
        }
        Ok(())
    }

    /// The session gives up the snapshot that it holds.
    pub fn let_go(&mut self, session: u32)
        requires { HasSeat self.old session }
        ensures added { Adds self.old self.new (λ h. let_go session) }
        ensures good { AddsGood self.old self.new (λ h. let_go session) }
        ensures txs { self.new.txs ≡ after_hold self.old.txs session None }
        ensures waits { (s : ℕ) → slice_index_or self.new.locks.wants s None ≡ after_snapshot session (slice_index_or self.old.locks.wants s None) }
        ensures rest { self.new ≡ record self.old { txs = self.new.txs; locks = self.new.locks } }
        ensures size { IsSameSize self.old self.new }
    {
        self.txs.drop_held(session);
        self.locks.snapshot_gone(session);
    }
}
