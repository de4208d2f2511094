/// What becomes of a row: so many are changed with it, or the transaction of this session has to end first.
#[derive(Clone, Copy, Debug)]
pub(crate) enum Turn {
    Counted(u64),
    Waits(u32),
}
