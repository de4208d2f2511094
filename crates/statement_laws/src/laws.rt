ghost use Rattle.statement_laws.specs.Custom.{CustomDeletes, CustomInserts, CustomUpdates};
ghost use Rattle.statement_laws.specs.Fresh.{EachScanIsFresh};
ghost use Rattle.statement_laws.specs.Whole.{EachWholeIsPlain};

/// At each moment of a run whole statements do, and answer, what they would over all leaves.
pub fn whole_statements_are_plain()
    ensures { EachWholeIsPlain }
{}

/// At each moment of a run the plan of a SELECT scans what its snapshot shows alone, whether it is run or printed: no leaf
/// that was detached, or whose mark the snapshot sees.
pub fn scans_are_fresh()
    ensures { EachScanIsFresh }
{}

/// With parameters an UPDATE, a DELETE or an INSERT makes of each history what it makes with their values written out,
/// wherever the two bind alike.
pub fn custom_changes_are_as_written_out()
    ensures updates { CustomUpdates }
    ensures deletes { CustomDeletes }
    ensures inserts { CustomInserts }
{}
