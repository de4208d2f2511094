/// The most setup blocks before the first session.
pub const MOST_SETUP_BLOCKS: usize = 64;

pub const MOST_SESSIONS: usize = 64;

/// The most steps of all sessions together.
pub const MOST_STEPS: usize = 4096;

pub const MOST_PERMUTATIONS: usize = 1024;

/// The most uses of steps in one permutation.
pub const MOST_USES: usize = 4096;

/// The most markers of one use.
pub const MOST_MARKERS: usize = 64;
