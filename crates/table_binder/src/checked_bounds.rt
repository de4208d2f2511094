ghost use Rattle.table_binder.specs.CheckedBounds.{LevelBoundsAreChecked};

/// The bounds of a level are those that `check_bound` gives for it: each of them for some bound as it
/// is written, and no other.
pub fn level_bounds_are_checked()
    ensures { LevelBoundsAreChecked }
{}
