ghost use Rattle.stores.specs.LockLaws.{ChangesAreLocked};

/// The versions that the open transaction of a session has made and ended lie in leaves that the session has
/// locked in ROW EXCLUSIVE mode or above, and what it has changed of partitions it has locked too.
pub fn changes_are_locked()
    ensures { ChangesAreLocked }
{}
