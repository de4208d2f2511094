ghost use Rattle.history.specs.Laws.{CommittedStaysSeen, AlikeSeeAlike, AbortUndoes, SeenBeforeItsEnd, OthersChangeNothing, HeldWasTaken, NoTwoConflict};
ghost use Rattle.history.specs.Dead.{DeadAreUnseen, DeadStayDead};

/// What was committed stays seen by every later snapshot, until that sees an end of it.
pub fn committed_stays_seen()
    ensures { CommittedStaysSeen }
{}

/// Two snapshots of one place, transaction and command see the same.
pub fn alike_see_alike()
    ensures { AlikeSeeAlike }
{}

/// After an abort the others see what they would see without the transaction.
pub fn abort_undoes()
    ensures { AbortUndoes }
{}

/// The snapshots that see a version stand on one side of its end.
pub fn seen_before_its_end()
    ensures { SeenBeforeItsEnd }
{}

/// What a snapshot sees of a leaf stays the same under every event but the abort of its own transaction
/// and changes by that one's earlier commands.
pub fn others_change_nothing()
    ensures { OthersChangeNothing }
{}

/// A snapshot that is held was taken at some place of the history.
pub fn held_was_taken()
    ensures { HeldWasTaken }
{}

/// Two sessions never hold conflicting modes on one table.
pub fn no_two_conflict()
    ensures { NoTwoConflict }
{}

/// A row version whose birth was aborted, or whose birth and end are committed, and that no snapshot that
/// is held sees, is seen by no snapshot that a session may read under, and no event brings it back.
pub fn dead_are_unseen()
    ensures unseen { DeadAreUnseen }
    ensures stay { DeadStayDead }
{}
