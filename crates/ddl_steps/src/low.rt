ghost use Rattle.std.specs.Prelude.{◌≡◌, ◌≤◌, ℕ, false};
ghost use Rattle.pg_values.specs.Sets.{has};

use pg_values::SessionSet;

/// The sessions of a set are numbers below 128.
pub fn sessions_are_low(set: SessionSet)
    ensures { (k : ℕ) → 128 ≤ k → has set k ≡ false }
{}
