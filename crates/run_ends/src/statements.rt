ghost use Rattle.std.specs.Prelude.{◌≡◌, ◌<◌, ◌≤◌, ℕ, List, All, replicate};
ghost use Rattle.schedule.specs.Run.{World, start};
ghost use Rattle.schedule.specs.Tasks.{AreKnown};
ghost use Rattle.schedule.specs.declared.task.Task.{Task};
ghost use Rattle.sessions.specs.Sessions.{new_session, rules_of};
ghost use Rattle.statement_runs.specs.Database.{empty, course};
ghost use Rattle.statement_runs.specs.declared.options.Options.{Options};
ghost use Rattle.run_ends.specs.Ending.{ComesToEnd};

use crate::{RankedCourse, sessions_come_to_an_end};
use std::marker::PhantomData;

/// That statements ask for locks and wait as a session may: an empty type stands for it.
pub trait AskingStatements {
    ghost use Rattle.std.specs.Prelude.{ℕ};
    ghost use Rattle.history.specs.Catalogue.{CatalogueEvents};
    ghost use Rattle.run_ends.specs.Asking.{AllAsk};

    /// How many tables there are, by the catalogue.
    ghost tables: { CatalogueEvents → ℕ };

    /// What each does to locks and waits.
    fn ask()
        ensures { AllAsk tables };
}

/// The run of statements over one history.
pub struct Running<A: AskingStatements> {
    statements: PhantomData<A>,
}

impl<A: AskingStatements> RankedCourse for Running<A> {
    ghost use Rattle.sql_ast.specs.Statements.{StatementTree};
    ghost use Rattle.statement_runs.specs.Database.{Database, course};
    ghost use Rattle.run_ends.specs.StatementRank.{IsRanked, has_committed};

    ghost State = { Database };

    ghost Tree = { StatementTree };

    ghost course = { course };

    ghost has_committed = { has_committed };

    ghost ranks = { IsRanked A.tables };

    fn lowers() {
        A::ask();
    }

    fn commits_once() {}
}

/// Where nothing has happened, and with every list of permutations of at most 128 sessions, the run
/// comes to its end.
pub fn statements_come_to_an_end<A: AskingStatements>()
    ensures { (o : Options) (n : ℕ) (ps : List (List Task)) → n ≤ 128 → All (AreKnown n) ps → ComesToEnd (rules_of course) (start (rules_of course) (record { executor = empty o n; sessions = replicate n new_session }) n ps) }
{
    sessions_come_to_an_end::<Running<A>>();
}
