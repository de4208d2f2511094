use history::{Entry, Stamp, Table};

/// A table and its newest drop, which does not count where its transaction was aborted.
#[derive(Debug, Drop)]
pub struct StoredTable {
    pub table: Table,
    pub dropped: Option<Stamp>,
}

/// An entry, its newest end and its newest mark.
#[derive(Debug, Drop)]
pub struct StoredEntry {
    pub entry: Entry,
    pub ended: Option<Stamp>,
    pub marked: Option<Stamp>,
}
