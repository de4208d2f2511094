ghost use Rattle.legal_statements.specs.TakenBack.{DetachAndAttachShowTheSame};

use soundness::sessions_have_siblings;

/// A partition that was detached, and attached again with the same bound, is shown as before: each session finds the
/// trees and the paths, and each snapshot the rows, of a history in which neither happened, whatever happens to tables
/// later in both.
pub fn detach_and_attach_show_the_same()
    ensures { DetachAndAttachShowTheSame }
{
    sessions_have_siblings();
}
