/// How a partition is detached.
#[derive(Clone, Copy, Debug, PartialEq, Eq)]
pub enum Detachment {
    AtOnce,
    Concurrently,
    Finalize,
}
