ghost use Rattle.std.specs.Prelude.{◌<◌, ◌≤◌, ℕ, List, All, replicate};
ghost use Rattle.schedule.specs.Run.{start};
ghost use Rattle.schedule.specs.Tasks.{AreKnown};
ghost use Rattle.schedule.specs.declared.task.Task.{Task};
ghost use Rattle.sessions.specs.Sessions.{new_session, rules_of};
ghost use Rattle.statement_runs.specs.Database.{empty, course};
ghost use Rattle.statement_runs.specs.declared.options.Options.{Options};
ghost use Rattle.run_ends.specs.Ending.{ComesToEnd};
ghost use Rattle.run_ends.specs.Asking.{AllAsk};
ghost use Rattle.run_ends.specs.NamedTables.{tables_named};

use crate::{AskingStatements, statements_come_to_an_end};
use lock_table::what_is_asked_may_come;

/// Each statement asks for locks on tables that the catalogue speaks of, and waits for sessions.
pub fn statements_ask()
    ensures { AllAsk tables_named }
{
    what_is_asked_may_come();
}

/// The statements of a run: an empty type stands for them.
pub struct RunStatements;

impl AskingStatements for RunStatements {
    ghost use Rattle.run_ends.specs.NamedTables.{tables_named};

    ghost tables = { tables_named };

    fn ask() {
        statements_ask();
    }
}

/// Where nothing has happened, and with every list of permutations of at most 128 sessions, whatever the run is told beside
/// its script, it comes to its end.
pub fn runs_of_statements_come_to_an_end()
    ensures { (o : Options) (n : ℕ) (ps : List (List Task)) → n ≤ 128 → All (AreKnown n) ps → ComesToEnd (rules_of course) (start (rules_of course) (record { executor = empty o n; sessions = replicate n new_session }) n ps) }
{
    statements_come_to_an_end::<RunStatements>();
}
