ghost use Rattle.row_change.specs.Laws.{PathsFit, RowsCanBePlaced, PathsAreMade, TreesAreMade, RowsAreOfWays, WaysLeadToLeaves};
ghost use Rattle.row_change.specs.Targets.{RoutedHaveWays, TargetsFit};

/// Where the entries that are present for a session are siblings, a row of a table's columns may be asked of
/// the table's path; and of its tree and its path, as a row that is placed is.
pub fn rows_fit_paths()
    ensures path { PathsFit }
    ensures placed { RowsCanBePlaced }
{}

/// The tables of a path, and of a tree, are made.
pub fn tables_are_made()
    ensures path { PathsAreMade }
    ensures tree { TreesAreMade }
{}

/// A row of a table's columns is one of the columns of each table on a way below it.
pub fn rows_are_of_ways()
    ensures { RowsAreOfWays }
{}

/// There is a way to the leaf of a row, and where no two tables of a tree have one leaf, it is the way of the
/// row.
pub fn ways_lead_to_leaves()
    ensures some { RoutedHaveWays }
    ensures same { WaysLeadToLeaves }
{}

/// A row of a table's columns may be asked of the path of each target below the table, and its tables are
/// made.
pub fn targets_fit()
    ensures { TargetsFit }
{}
