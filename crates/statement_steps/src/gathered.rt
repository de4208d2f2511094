use cond_logic::ChangeAsk;
use pg_values::{LeafId, ListOf, TableNo};
use row_router::{PathPart, Tree};

/// What a statement that changes rows has before it looks at them: the named table, its tree and the path above
/// it, what is asked, the leaves that are read, and whether rows may move from these to others.
#[derive(Drop)]
pub struct Gathered {
    pub table: TableNo,
    pub tree: Tree,
    pub path: ListOf<PathPart>,
    pub ask: ChangeAsk,
    pub leaves: ListOf<LeafId>,
    pub moves: bool,
}
