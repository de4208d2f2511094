ghost use Rattle.std.specs.Prelude.{◌≡◌, IfOk};

use crate::TxId;
use bound_forms::{Bound, Level};
use pg_values::{Kind, LeafId, NoMemory, PgText, TableNo};
use std::alloc::Global;
use std::marker::Model;
use std::rc::Rc;

/// A column of a table.
#[derive(Debug, Drop)]
pub struct Column {
    pub name: PgText,
    pub kind: Kind,
    pub not_null: bool,
}

impl Column {
    pub fn copy(&self, alloc: Global) -> Result<Self, NoMemory>
        ensures { IfOk result (λ copy. copy ≡ self.now) }
    {
        Ok(Column {
            name: self.name.copy(alloc)?,
            kind: self.kind,
            not_null: self.not_null,
        })
    }
}

/// The columns of a table in their order, seen as their list, which their copies share.
#[derive(Debug, Drop)]
pub struct Columns {
    columns: Rc<Vec<Column>>,
}

impl Model for Columns {
    ghost use Rattle.std.specs.Prelude.{List};
    ghost use Rattle.history.specs.declared.catalogue.Column.{Column};

    ghost Value = { List Column };

    ghost view = { λ c. c.columns.value.items };
}

impl Columns {
    pub fn new(alloc: Global, columns: Vec<Column>) -> Result<Self, NoMemory>
        ensures { IfOk result (λ c. c ≡ columns.items) }
    {
        Ok(Columns {
            columns: Rc::new(alloc, columns)?,
        })
    }

    pub fn as_slice(&self) -> &[Column]
        ensures { result.now ≡ self.now }
    {
        &self.columns
    }

    pub fn copy(&self, _alloc: Global) -> Result<Self, NoMemory>
        ensures { IfOk result (λ copy. copy ≡ self.now) }
    {
        Ok(Columns {
            columns: self.columns.clone()?,
        })
    }
}

/// A table holds rows itself, in its leaf, or is a level of partitions.
#[derive(Debug, Drop)]
pub enum TableShape {
    Leaf(LeafId),
    Level(Level),
}

/// A table as it was made, and the transaction and command that made it. Numbers rise in the order
/// in which tables are made, from 0.
#[derive(Debug, Drop)]
pub struct Table {
    pub id: TableNo,
    pub name: PgText,
    pub columns: Columns,
    pub shape: TableShape,
    pub by: TxId,
    pub cmd: u32,
}

/// The number of an entry. Numbers rise in the order in which entries are added, from 0.
#[derive(Clone, Copy, Debug, PartialEq, Eq)]
pub struct EntryId {
    pub number: u64,
}

/// A table's place as a partition of another, and the transaction and command that added it. A table
/// that is attached again gets another entry.
#[derive(Debug, Drop)]
pub struct Entry {
    pub id: EntryId,
    pub parent: TableNo,
    pub child: TableNo,
    pub bound: Bound,
    pub by: TxId,
    pub cmd: u32,
}

/// The transaction and the command that dropped a table, or ended an entry or marked it pending. It
/// counts while that transaction is not aborted.
#[derive(Clone, Copy, Debug, PartialEq, Eq)]
pub struct Stamp {
    pub by: TxId,
    pub cmd: u32,
}

/// What the rows of a table have to meet once it is a partition no more: the bound that it had, at
/// the level of its parent.
#[derive(Debug, Drop)]
pub struct KeptCheck {
    pub level: Level,
    pub bound: Bound,
}

/// A CHECK that was kept for a table, and the transaction and command that kept it.
#[derive(Debug, Drop)]
pub struct Check {
    pub table: TableNo,
    pub kept: KeptCheck,
    pub by: TxId,
    pub cmd: u32,
}
