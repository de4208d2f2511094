use crate::TxId;
use pg_values::{LeafId, Row, RowId};

/// A row version as it was born: its leaf, its values, and the transaction and command that made it.
#[derive(Debug, Drop)]
pub struct Version {
    pub id: RowId,
    pub leaf: LeafId,
    pub row: Row,
    pub by: TxId,
    pub cmd: u32,
}

/// Why a row version ended: its row was deleted, moved to another leaf, or replaced by another
/// version in the same leaf.
#[derive(Clone, Copy, Debug, PartialEq, Eq)]
pub enum Ending {
    Deleted,
    MovedTo(LeafId),
    ReplacedBy(RowId),
}

/// The end of a row version, with the transaction and the command that ended it. It counts while
/// that transaction is not aborted.
#[derive(Clone, Copy, Debug, PartialEq, Eq)]
pub struct End {
    pub by: TxId,
    pub cmd: u32,
    pub how: Ending,
}
