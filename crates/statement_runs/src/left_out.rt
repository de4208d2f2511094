ghost use Rattle.std.specs.Prelude.{◌≡◌, ℕ, List, Option};
ghost use Rattle.sql_ast.specs.Commands.{command_tree};
ghost use Rattle.statement_steps.specs.Attempts.{MayAttempt};
ghost use Rattle.statement_steps.specs.Ended.{ended};
ghost use Rattle.statement_steps.specs.declared.rest.Rest.{Rest as Left};
ghost use Rattle.statement_runs.specs.Attempted as attempted;
ghost use Rattle.statement_runs.specs.LeftOut as spec;
ghost use Rattle.statement_runs.specs.Printed.{IsStatement};

use pg_values::NoMemory;
use refusals::left_out;
use sql_ast::Command;
use statement_steps::{Attempt, Stop};
use stores::Stores;

pub(crate) fn command_word(command: &Command) -> &'static [u8]
    ensures { result.now ≡ spec.command_word (command_tree command.now) }
{
    match command {
        Command::Begin(_) => b"BEGIN",
        Command::Commit => b"COMMIT",
        Command::Rollback => b"ROLLBACK",
        Command::Set(_, _) => b"SET",
        Command::Reset(_) => b"RESET",
        Command::CreateTable(_, _, _) => b"CREATE",
        Command::CreatePartition(_, _, _, _) => b"CREATE",
        Command::DropTables(_, _) => b"DROP",
        Command::Attach(_, _, _) => b"ALTER",
        Command::Detach(_, _, _) => b"ALTER",
        Command::Lock(_, _) => b"LOCK",
        Command::Deallocate(_) => b"DEALLOCATE",
        Command::DeallocateAll => b"DEALLOCATE",
    }
}

// It is refused, and told by that word.
pub(crate) fn omit(attempt: &Attempt<'_>, stores: &Stores, word: &[u8]) -> Result<(), Stop>
    requires { MayAttempt stores.now attempt.now.caller }
    ensures { (left : Option Left) (out : List ℕ) → IsStatement left (ended result) stores.now stores.now out out attempt.now.caller (attempted.omitted word.now) }
{
    match left_out(attempt.alloc, word) {
        Ok(fault) => Err(Stop::Refused(fault)),
        Err(NoMemory) => Err(Stop::NoMemory),
    }
}
