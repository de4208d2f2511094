ghost use Rattle.std.specs.Prelude.{◌≡◌, ◌++◌, ◌∷◌, [], OnOk, OnErr};

use bound_forms::Level;
use history::KeptCheck;
use part_bounds::BoundSet;
use pg_values::{NoMemory, TableNo, ValueKey};
use std::alloc::Global;
use std::marker::Model;

/// The CHECKs that were kept for a table, seen as their list.
#[derive(Debug, Drop)]
pub struct KeptChecks {
    checks: Vec<KeptCheck>,
}

impl Model for KeptChecks {
    ghost use Rattle.std.specs.Prelude.{List};
    ghost use Rattle.history.specs.declared.catalogue.KeptCheck.{KeptCheck};

    ghost Value = { List KeptCheck };

    ghost view = { λ c. c.checks.items };
}

impl KeptChecks {
    pub fn new(alloc: Global) -> Self
        ensures { result ≡ [] }
    {
        KeptChecks {
            checks: Vec::new(alloc),
        }
    }

    pub fn as_slice(&self) -> &[KeptCheck]
        ensures { result.now ≡ self.now }
    {
        &self.checks
    }

    pub fn push(&mut self, check: KeptCheck) -> Result<(), NoMemory>
        ensures ok { OnOk result (self.new ≡ self.old ++ check ∷ []) }
        ensures err { OnErr result (self.new ≡ self.old) }
    {
        self.checks.push(check)?;
        Ok(())
    }
}

/// The place of a table as a partition: the level of its parent, the bounds of the parent's
/// partitions in plain order, and which of them is its own.
#[derive(Drop)]
pub struct Place {
    pub level: Level,
    pub bounds: BoundSet<ValueKey>,
    pub child: usize,
}

/// A table on a path upwards: the CHECKs kept for it, and its place where it is a partition.
#[derive(Drop)]
pub struct PathPart {
    pub table: TableNo,
    pub checks: KeptChecks,
    pub place: Option<Place>,
}
