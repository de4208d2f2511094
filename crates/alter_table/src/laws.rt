ghost use Rattle.alter_table.specs.Skipped.{SkippedIsClean};

/// Where a CHECK of the table says all that its place asks, a scan of its rows finds nothing.
pub fn skipped_is_clean()
    ensures { SkippedIsClean }
{}
