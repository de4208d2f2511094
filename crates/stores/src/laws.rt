ghost use Rattle.stores.specs.Laws.{GoodIsLegal, HeldIsOwn, BeginsAtZero, GoesOn, LocksKeepNumbers, OthersKeepNumbers, LooksKeepNumbers, HoldingKeepsLooks, LooksAreOpen, CommandsAreInOrder, TreesAreTogether, LeavesAreHoused, TablesAreFew};

/// A good history is legal and permitted, so that the laws of soundness hold of it.
pub fn good_is_legal()
    ensures { GoodIsLegal }
{}

/// A snapshot that is held is of its session's open transaction.
pub fn held_is_own()
    ensures { HeldIsOwn }
{}

/// A transaction that begins comes to its command 0.
pub fn begins_at_zero()
    ensures { BeginsAtZero }
{}

/// A transaction comes to a later command where it did what it did by earlier ones, whatever others do.
pub fn goes_on()
    ensures { GoesOn }
{}

/// It comes to the same command whatever is locked and waited for meanwhile.
pub fn locks_keep_numbers()
    ensures { LocksKeepNumbers }
{}

/// It comes to the same command whatever transactions of other sessions begin and end meanwhile.
pub fn others_keep_numbers()
    ensures { OthersKeepNumbers }
{}

/// It comes to the same command whatever snapshots are given up and held meanwhile.
pub fn looks_keep_numbers()
    ensures { LooksKeepNumbers }
{}

/// To hold a snapshot changes nothing of what the session reads under.
pub fn holding_keeps_looks()
    ensures { HoldingKeepsLooks }
{}

/// The snapshot that a command reads under is one that it may hold, and of which soundness speaks.
pub fn looks_are_open()
    ensures { LooksAreOpen }
{}

/// The command to which a transaction comes has no smaller number than any before it.
pub fn commands_are_in_order()
    ensures { CommandsAreInOrder }
{}

/// The entries that are present for a session stand together.
pub fn trees_are_together()
    ensures { TreesAreTogether }
{}

/// The leaf of each table was added to the rows before the table was made.
pub fn leaves_are_housed()
    ensures { LeavesAreHoused }
{}

/// There are at most 4,096 tables, dropped ones too.
pub fn tables_are_few()
    ensures { TablesAreFew }
{}
