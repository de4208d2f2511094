/// How the rows of a partitioned table are shared out: PARTITION BY RANGE, LIST or HASH (5.11.2 Declarative
/// Partitioning).
#[derive(Clone, Copy, Debug, PartialEq, Eq)]
pub enum Strategy {
    Range,
    List,
    Hash,
}
