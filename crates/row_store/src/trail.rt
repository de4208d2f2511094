ghost use Rattle.std.specs.Prelude.{◌≡◌, ◌+◌, ◌<◌, ◌≤◌, [], ◌∷◌, ◌++◌, IfOk, OnOk, OnErr, IfErr, length, max};

use crate::{SCAN_LIMIT, TrailRefused};
use pg_values::{LeafId, NoMemory};
use std::alloc::Global;
use std::marker::Model;

/// The leaves that a statement has scanned, in order, with spare places for scans to come.
#[derive(Debug, Drop)]
pub struct Trail {
    leaves: Vec<LeafId>,
    spare: usize,
}

impl Model for Trail {
    ghost use Rattle.std.specs.Prelude.{◌+◌, ◌≤◌, vec_len, vec_capacity};
    ghost use Rattle.row_store.specs.Kept.{KeptTrail};

    ghost Value = { KeptTrail };

    ghost view = { λ t. record { leaves = t.leaves.items; spare = t.spare } };

    ghost invariant = { λ t. vec_len t.leaves + t.spare ≤ vec_capacity t.leaves };
}

impl Trail {
    /// No scan yet, and no spare place.
    pub fn new(alloc: Global) -> Result<Self, NoMemory>
        ensures { IfOk result (λ t. (t.leaves ≡ []) × (t.spare ≡ 0)) }
    {
        Ok(Trail {
            leaves: Vec::new(alloc),
            spare: 0,
        })
    }

    /// The leaves that were scanned.
    pub fn leaves(&self) -> &[LeafId]
        ensures { result.now ≡ self.now.leaves }
    {
        &self.leaves
    }

    /// Makes at least `n` spare places. `Full` comes exactly where that many more scans would pass
    /// the limit of one statement.
    pub fn reserve(&mut self, n: usize) -> Result<(), TrailRefused>
        ensures ok { OnOk result (self.new ≡ record { leaves = self.old.leaves; spare = max self.old.spare n }) }
        ensures fits { OnOk result (length self.old.leaves + n ≤ SCAN_LIMIT) }
        ensures full { IfErr result (λ e. e ≡ TrailRefused.Full → SCAN_LIMIT < length self.old.leaves + n) }
        ensures memory { IfErr result (λ e. e ≡ TrailRefused.NoMemory → length self.old.leaves + n ≤ SCAN_LIMIT) }
        ensures err { OnErr result (self.new ≡ self.old) }
    {
        let count = self.leaves.len();
        if count > SCAN_LIMIT || n > SCAN_LIMIT - count {
            return Err(TrailRefused::Full);
        }
        if self.leaves.reserve(n).is_err() {
            return Err(TrailRefused::NoMemory);
        }
        self.spare = self.spare.max(n);
        Ok(())
    }

    // Takes a spare place for a scan.
    pub(crate) fn add(&mut self, leaf: LeafId)
        requires { 0 < self.old.spare }
        ensures leaves { self.new.leaves ≡ self.old.leaves ++ leaf ∷ [] }
        ensures spare { self.new.spare + 1 ≡ self.old.spare }
    {
        self.spare -= 1;
        let Ok(()) = self.leaves.push(leaf) else {
            unreachable!()
        };
    }
}
