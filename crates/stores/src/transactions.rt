ghost use Rattle.std.specs.Prelude.{◌≡◌, ◌++◌, Some, None, IfOk, OnOk, OnErr, slice_index_or, slice_set};
ghost use Rattle.history.specs.Transactions.{next_tx};
ghost use Rattle.history.specs.History.{History, tx_events};
ghost use Rattle.lock_table.specs.Stands.{IsIdle};
ghost use Rattle.tx_table.specs.Kept.{after_hold};
ghost use Rattle.stores.specs.Events.{begun, committed, aborted, let_go, withdrawn};
ghost use Rattle.stores.specs.Stand.{AllStand, Adds, AddsGood, HasSeat, HasOpen, HasNone, IsSameSize};

use crate::Stores;
use history::TxId;
use pg_values::NoMemory;

impl Stores {
    /// Begins a transaction in a session that has none.
    pub fn begin(&mut self, session: u32) -> Result<TxId, NoMemory>
        requires seat { HasSeat self.old session }
        requires none { HasNone self.old session }
        ensures added { OnOk result (Adds self.old self.new (λ h. begun h session)) }
        ensures good { OnOk result (AddsGood self.old self.new (λ h. begun h session)) }
        ensures number { IfOk result (λ tx. (h : History) → AllStand self.old h → tx.number ≡ next_tx (tx_events h)) }
        ensures open { IfOk result (λ tx. self.new.txs.current ≡ slice_set self.old.txs.current session (Some tx.number)) }
        ensures rest { self.new ≡ record self.old { txs = self.new.txs } }
        ensures size { IsSameSize self.old self.new }
        ensures err { OnErr result (self.new ≡ self.old) }
    {
        self.txs.begin(session)
    }

    /// Commits the session's transaction. Its snapshot is given up before, its locks after it has ended.
    pub fn commit(&mut self, session: u32)
        requires seat { HasSeat self.old session }
        requires open { HasOpen self.old session }
        ensures added { Adds self.old self.new (λ h. committed h session) }
        ensures good { AddsGood self.old self.new (λ h. committed h session) }
        ensures open { (h : History) → AllStand self.old h → self.new.txs.current ≡ slice_set self.old.txs.current session None }
        ensures idle { IsIdle self.new.locks session }
        ensures rest { self.new ≡ record self.old { txs = self.new.txs; locks = self.new.locks } }
        ensures size { IsSameSize self.old self.new }
    {
        let tx = self.end_looks(session);
        self.txs.commit(tx);
        self.locks.release_all(session);
    }

    /// Aborts the session's transaction, as `commit` ends it.
    pub fn abort(&mut self, session: u32)
        requires seat { HasSeat self.old session }
        requires open { HasOpen self.old session }
        ensures added { Adds self.old self.new (λ h. aborted h session) }
        ensures good { AddsGood self.old self.new (λ h. aborted h session) }
        ensures open { (h : History) → AllStand self.old h → self.new.txs.current ≡ slice_set self.old.txs.current session None }
        ensures idle { IsIdle self.new.locks session }
        ensures rest { self.new ≡ record self.old { txs = self.new.txs; locks = self.new.locks } }
        ensures size { IsSameSize self.old self.new }
    {
        let tx = self.end_looks(session);
        self.txs.abort(tx);
        self.locks.release_all(session);
    }

    // What comes before a transaction's end: the session waits for nothing and holds no snapshot.
    fn end_looks(&mut self, session: u32) -> TxId
        requires seat { HasSeat self.old session }
        requires open { HasOpen self.old session }
        ensures added { Adds self.old self.new (λ h. let_go session ++ withdrawn session) }
        ensures good { AddsGood self.old self.new (λ h. let_go session ++ withdrawn session) }
        ensures open { Some result.number ≡ slice_index_or self.old.txs.current session None }
        ensures txs { self.new.txs ≡ after_hold self.old.txs session None }
        ensures idle { IsIdle self.new.locks session }
        ensures rest { self.new ≡ record self.old { txs = self.new.txs; locks = self.new.locks } }
        ensures size { IsSameSize self.old self.new }
    {
        self.withdraw(session);
        self.let_go(session);
        self.txs.open_of(session).unwrap()
    }
}
