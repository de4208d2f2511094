ghost use Rattle.std.specs.Prelude.{◌≡◌, ℕ, List, false, Ok, IfOk};
ghost use Rattle.pg_values.specs.Sets.{has};
ghost use Rattle.pg_values.specs.declared.session_set.SessionSet.{SessionSet as SetOfSessions};
ghost use Rattle.pg_values.specs.Refusals.{IsAnswer};
ghost use Rattle.history.specs.History.{History};
ghost use Rattle.statement_steps.specs.Attempts.{MayAttempt};
ghost use Rattle.statement_steps.specs.Steps.{IsStep};
ghost use Rattle.stores.specs.Stand.{Stands};
ghost use Rattle.ddl_steps.specs.Scans as scans;
ghost use Rattle.ddl_steps.specs.Scans.{Scan};
ghost use Rattle.ddl_steps.specs.Waited.{scanned};

use crate::low::sessions_are_low;
use history::WaitOn;
use pg_values::{Refusal, SessionSet};
use statement_steps::{Attempt, Stop, wait_for};
use stores::Stores;

/// A part: what was judged refuses the statement, or it waits until the snapshots of those sessions have gone,
/// and then begins anew.
pub fn wait_for_snapshots(
    attempt: &Attempt<'_>,
    stores: &mut Stores,
    judged: Result<SessionSet, Refusal>,
) -> Result<(), Stop>
    requires may { MayAttempt stores.old attempt.now.caller }
    requires others { IfOk judged (λ set. has set attempt.now.caller.session ≡ false) }
    ensures step { (rows : History → List Scan) → ((h : History) → Stands stores.old h → IsAnswer judged (scans.judged h attempt.now.caller.session (rows h)))
        → IsStep (λ u. u) result stores.old stores.new attempt.now.caller attempt.now.caller.cmd (scanned attempt.now.names.now attempt.now.caller.session rows) }
    ensures none { IfOk result (λ u. (set : SetOfSessions) × (judged ≡ Ok set) × ((r : ℕ) → has set r ≡ false)) }
    ensures rest { stores.new ≡ record stores.old { locks = stores.new.locks } }
{
    let others = judged?;
    sessions_are_low(others);
    let what = WaitOn::Snapshots(others);
    wait_for(attempt, stores, what, None)
}
