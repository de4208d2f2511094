use pg_values::Isolation;
use schedule::BlockKind;

/// For whom a statement runs: the session, the level of its transaction, and what its block is in the script.
#[derive(Clone, Copy, Debug, PartialEq, Eq)]
pub struct Asker {
    pub session: usize,
    pub level: Isolation,
    pub kind: BlockKind,
}

/// Where a statement stands: in an explicit transaction, and alone in its block.
#[derive(Clone, Copy, Debug, PartialEq, Eq)]
pub struct Place {
    pub explicit: bool,
    pub alone: bool,
}
