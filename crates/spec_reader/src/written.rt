use crate::in_order::InOrder;
use crate::spec::{BlockList, SessionSpecs};
use pg_values::PgText;

/// A script as the grammar reads it, before its rules are judged.
#[derive(Drop)]
pub struct WrittenSpec {
    pub setups: BlockList,
    pub teardown: Option<PgText>,
    pub sessions: SessionSpecs,
    pub permutations: InOrder<InOrder<WrittenUse>>,
}

/// A use of a step, and what stands in its parentheses.
#[derive(Drop)]
pub struct WrittenUse {
    pub step: PgText,
    pub markers: InOrder<WrittenMarker>,
}

#[derive(Drop)]
pub enum WrittenMarker {
    Waiting,
    After(PgText),
    /// A count of notices, which no script may ask for.
    Notices,
}
