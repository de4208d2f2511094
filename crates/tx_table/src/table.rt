ghost use Rattle.std.specs.Prelude.{◌≡◌, ◌≢◌, ◌==◌, ℕ, ◌≤◌, ◌<◌, [], ◌∷◌, Some, None, IsSome, IfOk, OnErr, length, slice_index_or, slice_set, option_copied, option_map};
ghost use Rattle.std.specs.List.{list_any};
ghost use Rattle.history.specs.Transactions.{TxBegan, TxCommitted, TxAborted, fate, session_of, open_of, next_tx, IsPast};
ghost use Rattle.history.specs.Legal.{IsHoldSound};
ghost use Rattle.history.specs.Snapshots.{SnapshotHeld, SnapshotDropped, TakenSnapshot, held_by, sees};
ghost use Rattle.history.specs.History.{History, TxChange, SnapshotChange, tx_events, snapshot_events, given, fresh};
ghost use Rattle.history.specs.declared.transaction.Fate.TheVariants.{Running, Committed, Aborted};
ghost use Rattle.tx_table.specs.Kept.{somes, taken_now, given_kept, after_hold};
ghost use Rattle.tx_table.specs.Stands.{TableStands, SnapshotStands, HeldStands, IsOpen, OpenIs, MayBeHeld, sees_by, after_end};

use crate::Snapshot;
use history::{Fate, TxId};
use pg_values::NoMemory;
use std::alloc::{AllocError, Global};
use std::marker::Model;

/// The transactions of a run, the open one of each session, and the snapshots that are held.
#[derive(Drop)]
pub struct TxTable {
    owners: Vec<u32>,
    fates: Vec<Fate>,
    current: Vec<Option<u64>>,
    held: Vec<Option<Snapshot>>,
}

impl Model for TxTable {
    ghost use Rattle.tx_table.specs.Kept.{KeptTable};
    ghost use Rattle.tx_table.specs.Stands.{IsKept};

    ghost Value = { KeptTable };

    ghost view = { λ t. record { owners = t.owners.items; fates = t.fates.items; current = t.current.items; held = t.held.items } };

    ghost invariant = { λ t. IsKept (record { owners = t.owners.items; fates = t.fates.items; current = t.current.items; held = t.held.items }) };
}

impl TxTable {
    /// A table of so many sessions, none of which has a transaction.
    pub fn new(alloc: Global, sessions: u32) -> Result<Self, NoMemory>
        requires { sessions ≤ 65 }
        ensures stands { IfOk result (λ t. TableStands t []) }
        ensures sessions { IfOk result (λ t. length t.current ≡ sessions) }
    {
        Ok(TxTable {
            owners: Vec::new(alloc),
            fates: Vec::new(alloc),
            current: vec![in alloc; None; sessions as usize]?,
            held: no_snapshots(alloc, sessions)?,
        })
    }

    /// How many sessions there are. No other one holds a snapshot.
    pub fn sessions(&self) -> u32
        ensures is { result ≡ length self.now.current }
        ensures few { result ≤ 65 }
        ensures held { (s : ℕ) → result ≤ s → slice_index_or self.now.held s None ≡ None }
    {
        self.current.len() as u32
    }

    /// The open transaction of the session.
    pub fn open_of(&self, session: u32) -> Option<TxId>
        ensures is { (h : History) → TableStands self.now h → option_map (λ tx. tx.number) result ≡ open_of (tx_events h) session }
        ensures kept { option_map (λ tx. tx.number) result ≡ slice_index_or self.now.current session None }
    {
        match open_in(&self.current, session) {
            Some(number) => Some(TxId { number }),
            None => None,
        }
    }

    /// Begins a transaction in a session that has none.
    pub fn begin(&mut self, session: u32) -> Result<TxId, NoMemory>
        requires known { session < length self.old.current }
        requires none { slice_index_or self.old.current session None ≡ None }
        ensures added { IfOk result (λ tx. (h : History) →
            TableStands self.old h → TableStands self.new (TxChange (TxBegan session tx.number) ∷ h)) }
        ensures number { IfOk result (λ tx. (h : History) → TableStands self.old h → tx.number ≡ next_tx (tx_events h)) }
        ensures open { IfOk result (λ tx. self.new.current ≡ slice_set self.old.current session (Some tx.number)) }
        ensures sessions { length self.new.current ≡ length self.old.current }
        ensures err { OnErr result (self.new ≡ self.old) }
    {
        let number = self.fates.len();
        self.owners.reserve(1)?;
        self.fates.reserve(1)?;
        self.owners.push(session)?;
        self.fates.push(Fate::Running)?;
        self.current[session as usize] = Some(number as u64);
        Ok(TxId {
            number: number as u64,
        })
    }

    /// Commits a transaction that is open in its session.
    pub fn commit(&mut self, tx: TxId)
        requires { IsOpen self.old tx.number }
        ensures added { (h : History) → TableStands self.old h →
            TableStands self.new (TxChange (TxCommitted (session_of (tx_events h) tx.number) tx.number) ∷ h) }
        ensures kept { self.new ≡ after_end self.old tx.number Committed }
        ensures sessions { length self.new.current ≡ length self.old.current }
    {
        self.end(tx, Fate::Committed);
    }

    /// Aborts a transaction that is open in its session.
    pub fn abort(&mut self, tx: TxId)
        requires { IsOpen self.old tx.number }
        ensures added { (h : History) → TableStands self.old h →
            TableStands self.new (TxChange (TxAborted (session_of (tx_events h) tx.number) tx.number) ∷ h) }
        ensures kept { self.new ≡ after_end self.old tx.number Aborted }
        ensures sessions { length self.new.current ≡ length self.old.current }
    {
        self.end(tx, Fate::Aborted);
    }

    // Ends an open transaction.
    fn end(&mut self, tx: TxId, fate: Fate)
        requires running { IsOpen self.old tx.number }
        requires ended { fate ≢ Running }
        ensures kept { self.new ≡ after_end self.old tx.number fate }
        ensures mine { OpenIs self.old (slice_index_or self.old.owners tx.number 0) tx.number }
        ensures seat { slice_index_or self.old.current (slice_index_or self.old.owners tx.number 0) None ≡ Some tx.number }
    {
        let owner = self.owners[tx.number as usize];
        self.fates[tx.number as usize] = fate;
        self.current[owner as usize] = None;
    }

    /// The snapshot that the session holds, else one of what is committed now, for its open
    /// transaction and with the command number 0.
    pub fn snapshot(&self, alloc: Global, session: u32) -> Result<Snapshot, NoMemory>
        requires { IsSome (slice_index_or self.now.current session None) }
        ensures stands { IfOk result (λ snap. (h : History) →
            TableStands self.now h → SnapshotStands snap (given h session)) }
        ensures kept { IfOk result (λ snap. snap ≡ given_kept (slice_index_or self.now.held session None) self.now session) }
    {
        match self.held(session) {
            Some(snap) => snap.copy(alloc),
            None => self.new_snapshot(alloc, session),
        }
    }

    fn new_snapshot(&self, alloc: Global, session: u32) -> Result<Snapshot, NoMemory>
        requires { IsSome (slice_index_or self.now.current session None) }
        ensures stands { IfOk result (λ snap. (h : History) →
            TableStands self.now h → SnapshotStands snap (fresh (tx_events h) session)) }
        ensures kept { IfOk result (λ snap. snap ≡ given_kept None self.now session) }
    {
        let own = open_in(&self.current, session).unwrap();
        Ok(Snapshot {
            next: self.fates.len() as u64,
            running: running_in(alloc, &self.current)?,
            session,
            own: TxId { number: own },
            cmd: 0,
        })
    }

    /// Whether the snapshot sees what a command of the transaction did. It looks at one fate and at
    /// the list of transactions that ran, of which there are at most 65.
    #[inline]
    pub fn sees(&self, snap: &Snapshot, tx: TxId, cmd: u32) -> bool
        ensures is { (h : History) (s : TakenSnapshot) → TableStands self.now h → IsPast s.past (tx_events h) →
            SnapshotStands snap.now s → result ≡ sees (tx_events h) s tx.number cmd }
        ensures kept { result ≡ sees_by self.now snap.now tx.number cmd }
        ensures few { length snap.now.running ≤ 65 }
    {
        self.sees_kept(snap, tx, cmd)
    }

    #[inline]
    fn sees_kept(&self, snap: &Snapshot, tx: TxId, cmd: u32) -> bool
        ensures kept { result ≡ sees_by self.now snap.now tx.number cmd }
        ensures few { length snap.now.running ≤ 65 }
    {
        let committed = match self.fates.get(tx.number as usize) {
            Some(fate) => *fate == Fate::Committed,
            None => false,
        };
        if committed && tx.number < snap.next && !is_listed(&snap.running, tx.number) {
            return true;
        }
        tx.number == snap.own.number && cmd < snap.cmd
    }

    /// What became of a transaction.
    #[inline]
    pub fn fate(&self, tx: TxId) -> Fate
        ensures is { (h : History) → TableStands self.now h → result ≡ fate (tx_events h) tx.number }
        ensures kept { result ≡ slice_index_or self.now.fates tx.number Running }
    {
        match self.fates.get(tx.number as usize) {
            Some(fate) => *fate,
            None => Fate::Running,
        }
    }

    /// Holds a snapshot of the session's open transaction, and gives up the one that it held. The
    /// snapshot was taken since a transaction last began or ended, or is the one that is held, with
    /// whatever command number.
    pub fn hold(&mut self, session: u32, snap: Snapshot)
        requires { MayBeHeld self.old session snap }
        ensures added { (h : History) (s : TakenSnapshot) → TableStands self.old h → IsPast s.past (tx_events h) →
            SnapshotStands snap s → TableStands self.new (SnapshotChange (SnapshotHeld session s) ∷ h) }
        ensures sound { (h : History) → TableStands self.old h →
            (s : TakenSnapshot) × IsPast s.past (tx_events h) × SnapshotStands snap s × IsHoldSound session s h }
        ensures kept { self.new ≡ after_hold self.old session (Some snap) }
    {
        self.held[session as usize] = Some(snap);
    }

    /// Gives up the snapshot that the session holds.
    pub fn drop_held(&mut self, session: u32)
        requires { session < length self.old.current }
        ensures added { (h : History) → TableStands self.old h →
            TableStands self.new (SnapshotChange (SnapshotDropped session) ∷ h) }
        ensures kept { self.new ≡ after_hold self.old session None }
    {
        self.held[session as usize] = None;
    }

    /// The snapshot that the session holds.
    pub fn held(&self, session: u32) -> Option<&Snapshot>
        ensures is { (h : History) → TableStands self.now h →
            HeldStands (option_copied result) (held_by (snapshot_events h) session) (tx_events h) }
        ensures kept { option_copied result ≡ slice_index_or self.now.held session None }
    {
        match self.held.get(session as usize) {
            Some(held) => held.as_ref(),
            None => None,
        }
    }

    /// The session that began the transaction.
    pub fn session_of(&self, tx: TxId) -> u32
        ensures { (h : History) → TableStands self.now h → result ≡ session_of (tx_events h) tx.number }
    {
        match self.owners.get(tx.number as usize) {
            Some(session) => *session,
            None => 0,
        }
    }
}

// A place for the snapshot of each session.
fn no_snapshots(alloc: Global, sessions: u32) -> Result<Vec<Option<Snapshot>>, AllocError>
    ensures count { IfOk result (λ v. length v.items ≡ sessions) }
    ensures none { IfOk result (λ v. (s : ℕ) → slice_index_or v.items s None ≡ None) }
{
    let mut held = Vec::with_capacity(alloc, sessions as usize)?;
    for place in 0..sessions {
        let _ = place;
        held.push(None)?;
    }
    Ok(held)
}

fn open_in(current: &[Option<u64>], session: u32) -> Option<u64>
    ensures { result ≡ slice_index_or current.now session None }
{
    match current.get(session as usize) {
        Some(tx) => *tx,
        None => None,
    }
}

// It goes through the whole list, since that takes less time than to stop at the first that is found.
#[inline]
fn is_listed(running: &[u64], tx: u64) -> bool
    ensures { result ≡ list_any (λ t. t == tx) running.now }
{
    let mut any = false;
    for t in running {
        any |= *t == tx;
    }
    any
}

// The open transactions, session by session.
fn running_in(alloc: Global, current: &[Option<u64>]) -> Result<Vec<u64>, AllocError>
    ensures { IfOk result (λ v. v.items ≡ somes current.now) }
{
    let mut running = Vec::new(alloc);
    for seat in current {
        match seat {
            Some(tx) => running.push(*tx)?,
            None => {}
        }
    }
    Ok(running)
}
