use crate::in_order::InOrder;
use pg_values::PgText;

/// A script: how tables are set up and torn down, the sessions with their steps, and the orders in
/// which steps run.
#[derive(Debug, Drop)]
pub struct Spec {
    /// The SQL that sets tables up before the sessions do.
    pub setups: BlockList,
    /// The SQL that is run after all sessions.
    pub teardown: Option<PgText>,
    pub sessions: SessionSpecs,
    pub permutations: PermutationList,
}

/// A session.
#[derive(Debug, Drop)]
pub struct SessionSpec {
    pub name: PgText,
    pub setup: Option<PgText>,
    pub steps: StepSpecs,
    pub teardown: Option<PgText>,
}

/// A step: its name, and the SQL that it runs.
#[derive(Debug, Drop)]
pub struct StepSpec {
    pub name: PgText,
    pub block: PgText,
}

/// A use of a step in a permutation.
#[derive(Debug, Drop)]
pub struct StepUse {
    pub step: PgText,
    pub markers: Markers,
}

/// What holds the report of a step back.
#[derive(Debug, Drop)]
pub enum Marker {
    /// The step is reported as waiting as soon as it is launched.
    Waiting,
    /// The step of this name has to be complete before.
    After(PgText),
}

pub type BlockList = InOrder<PgText>;

pub type SessionSpecs = InOrder<SessionSpec>;

pub type StepSpecs = InOrder<StepSpec>;

pub type PermutationList = InOrder<UseList>;

pub type UseList = InOrder<StepUse>;

pub type Markers = InOrder<Marker>;
