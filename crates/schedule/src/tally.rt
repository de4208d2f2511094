/// What statements have given and read up to now.
#[derive(Clone, Copy, Debug, PartialEq, Eq)]
pub struct Tally {
    /// The rows that SELECTs have answered.
    pub rows: u64,
    /// The leaves that statements have read, each as often as it was read.
    pub reads: u64,
}
