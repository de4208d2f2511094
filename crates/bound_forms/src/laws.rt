ghost use Rattle.bound_forms.specs.Laws.{AddedInEitherOrder, NoCommonKey, AtMostOneAccepts, DefaultAcceptsTheRest, OverlapIsSharedResidue, PlainOrderKeeps, PlainOrderIsSorted};
ghost use Rattle.bound_forms.specs.Levels.{LevelBoundsFit, LevelBoundsCompare, LevelBoundsHaveAKind, LevelBoundsAreFilled, LevelKeysFit, LevelKeysFitSets, RowsGiveKeys};
ghost use Rattle.bound_forms.specs.Within.{WithinAccepts};

/// Two bounds of one level that do not overlap accept no key in common.
pub fn no_common_key()
    ensures { NoCommonKey }
{}

/// Of the bounds of a level, none of which overlap, at most one accepts a key.
pub fn at_most_one_accepts()
    ensures { AtMostOneAccepts }
{}

/// A default accepts exactly what no sibling accepts.
pub fn default_accepts_the_rest()
    ensures { DefaultAcceptsTheRest }
{}

/// Of moduli of which one is a factor of the other, remainders overlap exactly where some hash
/// leaves both.
pub fn overlap_is_shared_residue()
    ensures { OverlapIsSharedResidue }
{}

/// Plain order keeps the bounds that are given.
pub fn plain_order_keeps()
    ensures { PlainOrderKeeps }
{}

/// In plain order no bound comes after a later one.
pub fn plain_order_is_sorted()
    ensures { PlainOrderIsSorted }
{}

/// Of two bounds of one level either can be added first, so a set does not depend on the order in which its
/// bounds were added.
pub fn added_in_either_order()
    ensures { AddedInEitherOrder }
{}

/// What a bound inside another accepts the other accepts.
pub fn within_accepts()
    ensures { WithinAccepts }
{}

/// Two bounds of one level can stand side by side, unless a modulus does not suit the other.
pub fn level_bounds_fit()
    ensures { LevelBoundsFit }
{}

/// The values of two bounds of one level can be compared, whatever the moduli: `within` can be asked of
/// them.
pub fn level_bounds_compare()
    ensures { LevelBoundsCompare }
{}

/// A set whose key kind admits every value but null can hold the bounds of any level, none of which is
/// empty.
pub fn level_bounds_have_a_kind()
    ensures kind { LevelBoundsHaveAKind }
    ensures filled { LevelBoundsAreFilled }
{}

/// The bounds of a level can be asked of a key of that level, one by one and as a set.
pub fn level_keys_fit()
    ensures each { LevelKeysFit }
    ensures set { LevelKeysFitSets }
{}

/// A row whose values at the places of the key columns are of their kinds, or null, gives a key of the
/// level.
pub fn rows_give_keys()
    ensures { RowsGiveKeys }
{}
