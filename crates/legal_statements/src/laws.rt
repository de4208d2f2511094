ghost use Rattle.legal_statements.specs.Laws.{FollowedIsLegal, AskedMayFollow, NewRowMayFollow, OldRowMayFollow, NewLeafMayFollow, NewLevelMayFollow, LeavesStayThere, NobodyElseDrops, NobodyElseEnds, DropMayFollow, NewPartitionMayFollow, AttachMayFollow, SkipMayFollow, CheckMayFollow, NoneBreaks, NothingIsFound, NobodyElseMarks, MarkMayFollow, ListedIsThere, NamedIsThere, TreeIsWhole, TableDropMayFollow, TreesStay, NewRowsMayFollow, ThereIsKnown};

/// A legal history with permitted events stays one when events come that may follow it.
pub fn followed_is_legal()
    ensures { FollowedIsLegal }
{}

/// What comes of asking for a lock, or for the end of others, may follow.
pub fn asked_may_follow()
    ensures { AskedMayFollow }
{}

/// A row may be stored where the tree of the named table routes it and no place above refuses it.
pub fn new_row_may_follow()
    ensures { NewRowMayFollow }
{}

/// A version may be ended whose leaf the session has locked for writing.
pub fn old_row_may_follow()
    ensures { OldRowMayFollow }
{}

/// A table with rows of its own may be made, its leaf before it, where its name is free.
pub fn new_leaf_may_follow()
    ensures { NewLeafMayFollow }
{}

/// So may a partitioned table.
pub fn new_level_may_follow()
    ensures { NewLevelMayFollow }
{}

/// The leaf of each table was added, and stays there whatever comes but new tables.
pub fn leaves_stay_there()
    ensures { LeavesStayThere }
{}

/// No other transaction has dropped a table that the session's own one has, and has locked with ACCESS
/// EXCLUSIVE.
pub fn nobody_else_drops()
    ensures { NobodyElseDrops }
{}

/// Nor ended an entry that it has, where it has locked the parent.
pub fn nobody_else_ends()
    ensures { NobodyElseEnds }
{}

/// Entries may end and then tables be dropped, where the session has locked them and no entry of a table
/// is left.
pub fn drop_may_follow()
    ensures { DropMayFollow }
{}

/// A table that the transaction has just made may become a partition.
pub fn new_partition_may_follow()
    ensures { NewPartitionMayFollow }
{}

/// A table that was there may be attached, where its rows were scanned and nobody else may use it.
pub fn attach_may_follow()
    ensures { AttachMayFollow }
{}

/// Where nothing that a scan of a table's leaves finds stands against a test, no row that is judged there
/// breaks it.
pub fn none_breaks()
    ensures { NoneBreaks }
{}

/// And where no row that is judged there breaks the test, the scan finds nothing.
pub fn nothing_is_found()
    ensures { NothingIsFound }
{}

/// No other transaction has marked a partition that is not pending, where the session has locked its
/// parent.
pub fn nobody_else_marks()
    ensures { NobodyElseMarks }
{}

/// A partition may be marked pending, beside no default and no other pending one.
pub fn mark_may_follow()
    ensures { MarkMayFollow }
{}

/// An entry in a session's list is there for its transaction, and so are its two tables.
pub fn listed_is_there()
    ensures { ListedIsThere }
{}

/// The table that a name means to a session is there for its transaction.
pub fn named_is_there()
    ensures { NamedIsThere }
{}

/// The tree that a statement which changes tables works on has each table below its topmost one, once.
pub fn tree_is_whole()
    ensures { TreeIsWhole }
{}

/// A table and all below it may be dropped, once the entries of all of them have ended.
pub fn table_drop_may_follow()
    ensures { TableDropMayFollow }
{}

/// Events of rows, locks and snapshots change no tree and no path.
pub fn trees_stay()
    ensures { TreesStay }
{}

/// Many rows may be stored by one command, one after the other.
pub fn new_rows_may_follow()
    ensures { NewRowsMayFollow }
{}

/// A session may ask for a lock on a table that is there for its transaction.
pub fn there_is_known()
    ensures { ThereIsKnown }
{}

/// A table may become a partition without a scan, where a CHECK of it says all that the new place asks.
pub fn skip_may_follow()
    ensures { SkipMayFollow }
{}

/// A CHECK may be kept that repeats a partition's bound, before the entry ends.
pub fn check_may_follow()
    ensures { CheckMayFollow }
{}
