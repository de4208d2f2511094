use row_store::SeenRow;

/// What is done with a target: this version is changed, its row lent; the row is passed over; this
/// session's transaction has to end first; or the statement is refused.
#[derive(Debug, Drop)]
pub enum Verdict<'s> {
    Change(SeenRow<'s>),
    Pass,
    Wait(u32),
    Refuse(Conflict),
}

/// What a committed transaction of this session has done with a row that the snapshot still sees: it has
/// changed or deleted it, or moved it to another leaf.
#[derive(Clone, Copy, Debug, PartialEq, Eq)]
pub enum Conflict {
    Changed(u32),
    Moved(u32),
}
