ghost use Rattle.std.specs.Prelude.{◌≡◌, length};
ghost use Rattle.statement_steps.specs.Gathered.{CanBeCounted, found_of};

use crate::Gathered;
use history::TxId;
use pg_values::{LeafId, RowId, SessionSet, TableNo};
use std::marker::Model;

/// A row that is to be changed: the leaf that has it, and the number of the version that was found.
#[derive(Clone, Copy, Debug, PartialEq, Eq)]
pub struct TargetRow {
    pub leaf: LeafId,
    pub id: RowId,
}

/// Of rows that are changed by a transaction: what the statement has gathered, the rows that are still to be
/// looked at, that for which it waits first, and how many it has changed.
#[derive(Drop)]
pub struct RestOfRows {
    by: TxId,
    gathered: Gathered,
    left: Vec<TargetRow>,
    changed: u64,
}

impl Model for RestOfRows {
    ghost use Rattle.std.specs.Coded.{codes};
    ghost use Rattle.std.specs.Prelude.{length};
    ghost use Rattle.statement_steps.specs.Codes.{asked_code, cond_code, found_code, left_code, scalar_code, table_code};
    ghost use Rattle.statement_steps.specs.Gathered.{CanBeCounted, RowsLeft, found_of};

    ghost Value = { RowsLeft };

    ghost coded = { left_code (Prim.hlevel codes)
        (found_code (Prim.hlevel codes) (table_code (Prim.hlevel codes) (Prim.hlevel codes) (Prim.hlevel codes) (Prim.hlevel codes)) (Prim.hlevel codes)
        (asked_code (scalar_code (Prim.hlevel codes) (Prim.hlevel codes) (Prim.hlevel codes)) (cond_code (Prim.hlevel codes) (Prim.hlevel codes) (Prim.hlevel codes))) (Prim.hlevel codes))
        (Prim.hlevel codes) };

    ghost view = { λ r. record { by = r.by; found = found_of r.gathered; left = r.left.items; changed = r.changed } };

    ghost invariant = { λ r. CanBeCounted r.changed (length r.left.items) };
}

impl RestOfRows {
    pub fn new(by: TxId, gathered: Gathered, left: Vec<TargetRow>, changed: u64) -> Self
        requires { CanBeCounted changed (length left.items) }
        ensures { result ≡ record { by = by; found = found_of gathered; left = left.items; changed = changed } }
    {
        RestOfRows {
            by,
            gathered,
            left,
            changed,
        }
    }

    /// The transaction that changes the rows.
    pub fn by(&self) -> TxId
        ensures { result ≡ self.now.by }
    {
        self.by
    }

    /// What was gathered, the rows that are left, and how many are changed.
    pub fn into_parts(self) -> (Gathered, Vec<TargetRow>, u64)
        ensures found { found_of result.0 ≡ self.found }
        ensures left { result.1.items ≡ self.left }
        ensures changed { result.2 ≡ self.changed }
        ensures few { CanBeCounted result.2 (length result.1.items) }
    {
        (self.gathered, self.left, self.changed)
    }
}

/// Of a partition that is detached concurrently: its parent and the partition, the transaction that has
/// marked it pending, and the sessions whose transactions are still to end before it is one no more.
#[derive(Clone, Copy, Debug)]
pub struct RestOfDetach {
    pub parent: TableNo,
    pub table: TableNo,
    pub by: TxId,
    pub behind: SessionSet,
}

/// Where a statement stands in the middle of its run.
#[derive(Drop)]
pub enum Rest {
    Rows(RestOfRows),
    Detach(RestOfDetach),
}
