ghost use Rattle.run_ends.specs.Parts.{LocksAreAskedFor, OthersAreWaitedFor};

use lock_table::what_is_asked_may_come;

/// A lock is asked for: who gets it keeps what it had, and who has to wait does.
pub fn locks_are_asked_for()
    ensures { LocksAreAskedFor }
{
    what_is_asked_may_come();
}

/// Others are waited for, of whom one is named.
pub fn others_are_waited_for()
    ensures { OthersAreWaitedFor }
{
    what_is_asked_may_come();
}
