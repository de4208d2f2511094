ghost use Rattle.std.specs.Prelude.{◌≡◌};
ghost use Rattle.sessions.specs.Sessions as spec;

/// Which plans prepared statements get.
#[derive(Clone, Copy, Debug, PartialEq, Eq)]
pub enum PlanCacheMode {
    Auto,
    ForceCustomPlan,
    ForceGenericPlan,
}

/// The settings of a session.
#[derive(Clone, Copy, Debug, PartialEq, Eq)]
pub struct Settings {
    pub enable_partition_pruning: bool,
    pub enable_partitionwise_join: bool,
    pub enable_partitionwise_aggregate: bool,
    pub enable_hashjoin: bool,
    pub plan_cache_mode: PlanCacheMode,
}

impl Settings {
    /// Those of a session that has made none.
    pub fn defaults() -> Self
        ensures { result ≡ spec.default_settings }
    {
        Settings {
            enable_partition_pruning: true,
            enable_partitionwise_join: false,
            enable_partitionwise_aggregate: false,
            enable_hashjoin: true,
            plan_cache_mode: PlanCacheMode::Auto,
        }
    }
}
