use history::TxId;
use pg_values::{LeafId, Row, RowId};

/// What became of a version: it stands, with its row; a transaction that is still open has ended
/// it; or a committed one has deleted it, moved it to another leaf, or replaced it by a version.
#[derive(Debug, Drop)]
pub enum Newest<'s> {
    Stands(&'s Row),
    EndedBy(TxId),
    Gone(TxId),
    Moved(TxId, LeafId),
    Replaced(TxId, RowId),
}
