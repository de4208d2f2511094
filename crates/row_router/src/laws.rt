ghost use Rattle.row_router.specs.Laws.{OneLeaf, RowsFit, TreesAreSound, SameMarksSameTree, UnseenMarksShow, DefaultStandsLast};

/// At most one leaf of a tree accepts a row: the one on its way.
pub fn one_leaf()
    ensures { OneLeaf }
{}

/// A row of the columns may be asked of each tree whose keys lie in them.
pub fn rows_fit()
    ensures { RowsFit }
{}

/// Where the entries that are present for a session are siblings, its trees are sound: the law of one leaf
/// holds of them, and rows of the table's columns can be asked of them.
pub fn trees_are_sound()
    ensures { TreesAreSound }
{}

/// Two snapshots that see the same marks are shown one tree.
pub fn same_marks_same_tree()
    ensures { SameMarksSameTree }
{}

/// A snapshot that sees no mark is shown all pending partitions.
pub fn unseen_marks_show()
    ensures { UnseenMarksShow }
{}

/// In plain order a default stands last.
pub fn default_stands_last()
    ensures { DefaultStandsLast }
{}
