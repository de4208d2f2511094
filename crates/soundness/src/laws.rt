ghost use Rattle.soundness.specs.Laws.{AttachCanBeMet, SkipCanBeMet, LegalKeepsAll, LegalKeepsChecks, LegalKeepsColumns, LeavesHaveColumns, RowsAreOfTrees, RoutedAreOfColumns, AttachMaySkip, RowsPass, PathPasses, WaitingPass, OneLeafAccepts, SessionsHaveSiblings, CreateIsAdd, PathAccepts, RoutedAccepts, TreeHasAllBelow, WaysAreShort, ChildrenAreCounted, WaitingAccept, ConditionsCanBeMet};

/// Each kind of event keeps the invariant, where it is permitted.
pub fn legal_keeps_all()
    ensures { LegalKeepsAll }
{}

/// And its parts on kept CHECKs.
pub fn legal_keeps_checks()
    ensures { LegalKeepsChecks }
{}

/// Each stored row is a row of the columns of the table that has its leaf.
pub fn legal_keeps_columns()
    ensures { LegalKeepsColumns }
{}

/// A leaf of a table's tree is that of a table with the same columns.
pub fn leaves_have_columns()
    ensures { LeavesHaveColumns }
{}

/// Each row that is stored in a leaf of a table's tree is a row of the table's columns.
pub fn rows_are_of_trees()
    ensures { RowsAreOfTrees }
{}

/// A row of a table's columns is one of the columns of the leaf to which the table's tree routes it.
pub fn routed_are_of_columns()
    ensures { RoutedAreOfColumns }
{}

/// An ATTACH that leaves its scan out, under the conditions for that, is an ATTACH whose scan finds nothing.
pub fn attach_may_skip()
    ensures { AttachMaySkip }
{}

/// Each row that a snapshot is shown passes the CHECKs of its leaf and of the tables above it.
pub fn rows_pass()
    ensures { RowsPass }
{}

/// A row that no CHECK of a table's path refuses passes each one above the table.
pub fn path_passes()
    ensures { PathPasses }
{}

/// A row that a waiting statement may write passes, whatever others do, the CHECKs that it passed before.
pub fn waiting_pass()
    ensures { WaitingPass }
{}

/// Each row that a snapshot is shown in a leaf of a tree is accepted by that leaf and by no other of
/// the tree: for every session, and each snapshot that it has open or could take.
pub fn one_leaf_accepts()
    ensures { OneLeafAccepts }
{}

/// The entries that are present for a session can stand together: what the catalogue asks where it makes
/// a tree.
pub fn sessions_have_siblings()
    ensures { SessionsHaveSiblings }
{}

/// A table that was just made may become a partition without a scan of its own.
pub fn create_is_add()
    ensures { CreateIsAdd }
{}

/// A row that no place on a table's path refuses is accepted by each entry above the table.
pub fn path_accepts()
    ensures { PathAccepts }
{}

/// A row that a tree routes to a leaf is accepted by each entry above the leaf, where no place on the
/// path of the tree's table refuses it.
pub fn routed_accepts()
    ensures { RoutedAccepts }
{}

/// Each leaf below a table, by the entries that a session has, is one of the tree that a statement which
/// changes tables works on: so a scan of the tree's leaves reads all of them.
pub fn tree_has_all_below()
    ensures { TreeHasAllBelow }
{}

/// A way through the entries that a session has is no longer than the path of its lower end and the
/// tree of its upper end say.
pub fn ways_are_short()
    ensures { WaysAreShort }
{}

/// A table has no more children than the list of those that are present for the session.
pub fn children_are_counted()
    ensures { ChildrenAreCounted }
{}

/// A leaf that a waiting statement may write accepts, whatever others do, what it accepted before.
pub fn waiting_accept()
    ensures { WaitingAccept }
{}

/// What is asked of events and snapshots can be met, by a history in which a partition of a partition shows
/// a row.
pub fn conditions_can_be_met()
    ensures { ConditionsCanBeMet }
{}

/// And by one in which a table with a row is attached beside a pending partition, while a snapshot from before
/// the mark is open.
pub fn attach_can_be_met()
    ensures { AttachCanBeMet }
{}

/// What is asked of an ATTACH without a scan can be met, of a table that has a row.
pub fn skip_can_be_met()
    ensures { SkipCanBeMet }
{}
