use cond_logic::SelectAsk;
use pg_values::ListOf;
use row_router::Tree;
use tx_table::Snapshot;

/// What a SELECT stands for: what it asks for, the trees of its tables, and the snapshot of its command, under
/// which they were read.
#[derive(Drop)]
pub struct Gathered {
    pub ask: SelectAsk,
    pub trees: ListOf<Tree>,
    pub snap: Snapshot,
}
