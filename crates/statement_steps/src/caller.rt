use pg_values::Isolation;
use schedule::BlockKind;

/// For whom a statement runs: the session, how many sessions there are, the level of its transaction, the
/// number of the command in it, and what its block is in the script.
#[derive(Clone, Copy, Debug, PartialEq, Eq)]
pub struct Caller {
    pub session: u32,
    pub sessions: u32,
    pub level: Isolation,
    pub cmd: u32,
    pub kind: BlockKind,
}
