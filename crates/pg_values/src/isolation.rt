/// The isolation level of a transaction (13.2 Transaction Isolation). READ UNCOMMITTED behaves as READ COMMITTED,
/// but a statement that sets the one does not set the other.
#[derive(Clone, Copy, Debug, PartialEq, Eq)]
pub enum Isolation {
    ReadCommitted,
    ReadUncommitted,
    RepeatableRead,
}
