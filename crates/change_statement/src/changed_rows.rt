use pg_values::{LeafId, ListOf};

/// How many rows an UPDATE or a DELETE has changed, and the leaves that it has read.
#[derive(Drop)]
pub struct ChangedRows {
    pub count: u64,
    pub reads: ListOf<LeafId>,
}
