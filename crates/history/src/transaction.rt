/// The number of a transaction. Numbers rise in the order in which transactions begin, from 0.
#[derive(Clone, Copy, Debug, PartialEq, Eq)]
pub struct TxId {
    pub number: u64,
}

/// What became of a transaction.
#[derive(Clone, Copy, Debug, PartialEq, Eq)]
pub enum Fate {
    Running,
    Committed,
    Aborted,
}
