use cond_logic::Cond;
use history::TxId;

/// Who changes rows: a session by its open transaction, whether that one is REPEATABLE READ, and the
/// condition of the statement.
#[derive(Clone, Copy, Debug)]
pub struct Updater<'c> {
    pub session: u32,
    pub tx: TxId,
    pub repeats: bool,
    pub condition: &'c Option<Cond>,
}
