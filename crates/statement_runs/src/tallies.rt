//! What statements have given and read.

ghost use Rattle.std.specs.Prelude.{◌≡◌};
ghost use Rattle.statement_runs.specs.Tallies.{added};

use schedule::Tally;

/// So many rows are given, and so many leaves read. A sum stays at the greatest where it would pass it.
pub(crate) fn count(tally: &mut Tally, rows: u64, reads: u64)
    ensures { tally.new ≡ added tally.old (record { rows = rows; reads = reads }) }
{
    tally.rows = tally.rows.saturating_add(rows);
    tally.reads = tally.reads.saturating_add(reads);
}
