ghost use Rattle.std.specs.Prelude.{◌≡◌};
ghost use Rattle.stores.specs.Events.{held};
ghost use Rattle.statement_steps.specs.Attempts.{MayAttempt};
ghost use Rattle.statement_steps.specs.Made.{made};
ghost use Rattle.statement_steps.specs.Asks as asks;
ghost use Rattle.statement_steps.specs.Steps.{IsStep};

use crate::{Attempt, Stop};
use pg_values::Isolation;
use stores::Stores;

/// The snapshot under which the command reads is held from now on, where none is.
pub fn hold(attempt: &Attempt<'_>, stores: &mut Stores) -> Result<(), Stop>
    requires { MayAttempt stores.old attempt.now.caller }
    ensures step { IsStep (λ u. u) result stores.old stores.new attempt.now.caller attempt.now.caller.cmd (λ h. made (held h attempt.now.caller.session attempt.now.caller.cmd) tt) }
    ensures rest { stores.new ≡ record stores.old { txs = stores.new.txs } }
{
    stores.hold(attempt.alloc, attempt.caller.session, attempt.caller.cmd)?;
    Ok(())
}

/// A transaction at REPEATABLE READ takes its snapshot before its first statement waits, and keeps it.
pub fn hold_if_repeatable(attempt: &Attempt<'_>, stores: &mut Stores) -> Result<(), Stop>
    requires { MayAttempt stores.old attempt.now.caller }
    ensures step { IsStep (λ u. u) result stores.old stores.new attempt.now.caller attempt.now.caller.cmd (asks.held_at attempt.now.caller.level attempt.now.caller.session attempt.now.caller.cmd) }
    ensures rest { stores.new ≡ record stores.old { txs = stores.new.txs } }
{
    match attempt.caller.level {
        Isolation::RepeatableRead => hold(attempt, stores),
        Isolation::ReadCommitted | Isolation::ReadUncommitted => Ok(()),
    }
}
