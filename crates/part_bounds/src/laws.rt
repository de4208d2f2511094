ghost use Rattle.part_bounds.specs.Laws.{LevelEndsFit, LevelHasStrategy, LevelRangesFit, ListedPointsAreApart, StoredPointsAreAll, StoredPointsAreWide, StoredPointsAscend};

/// The bounds of a level are of its strategy.
pub fn level_has_strategy()
    ensures { LevelHasStrategy }
{}

/// The point of a key's first values, filled up with MIN or MAX, can be compared with each stored
/// point of a level, where each value can be compared with its column's.
pub fn level_ends_fit()
    ensures fit { LevelEndsFit }
    ensures wide { StoredPointsAreWide }
{}

/// The ranges of a level can be compared with one another.
pub fn level_ranges_fit()
    ensures { LevelRangesFit }
{}

/// The stored points are the points of the bounds, each with its child, and no other.
pub fn stored_points_are_all()
    ensures { StoredPointsAreAll }
{}

/// The stored points ascend, and those of lists are apart: each listed value has one.
pub fn stored_points_ascend()
    ensures ascend { StoredPointsAscend }
    ensures apart { ListedPointsAreApart }
{}
