ghost use Rattle.select_statement.specs.Custom.{CustomCancels, CustomExplains, CustomSelects, PlainWithValues};
ghost use Rattle.select_statement.specs.Laws.{LeavesAreFew, OneTableIsPlain, TablesArePlain};

use select_answer::{one_item_is_read_once, pruned_is_plain};
use stores::good_is_legal;

/// A tree has no more leaves than there are tables.
pub fn leaves_are_few()
    ensures { LeavesAreFew }
{}

/// In each history of a run a SELECT of one table, once that is locked, does and answers what a SELECT with the
/// same locks does that scans all leaves of its tree.
pub fn one_table_is_plain()
    ensures { OneTableIsPlain }
{
    good_is_legal();
    leaves_are_few();
    one_item_is_read_once();
    pruned_is_plain();
}

/// So does a SELECT of several tables, or it makes too many scans, and is refused for that.
pub fn tables_are_plain()
    ensures { TablesArePlain }
{
    good_is_legal();
    pruned_is_plain();
}

/// A generic plan, which is run with the values of parameters, answers what a custom one does, which has them in its
/// conditions: both answer plainly, and plain answers are the same.
pub fn plain_with_values()
    ensures { PlainWithValues }
{}

/// With parameters a SELECT makes of each history what it makes with their values written out, wherever the two bind
/// alike. So does its EXPLAIN, and the same waits are cancelled by it.
pub fn custom_selects_are_as_written_out()
    ensures selects { CustomSelects }
    ensures explains { CustomExplains }
    ensures cancels { CustomCancels }
{}
