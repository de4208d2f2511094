ghost use Rattle.std.specs.Prelude.{◌≡◌, ◌∷◌, ◌++◌, [], OnOk, OnErr};

use crate::block::Block;
use pg_values::NoMemory;
use std::alloc::Global;
use std::marker::Model;

/// What is done next, once nobody can go on.
#[derive(Debug, Drop)]
pub enum Task<'s> {
    /// A block is launched.
    Launch { block: Block<'s> },
    /// The steps have ended: what waits is cancelled, and then no marker holds any more.
    Settle,
    /// What the session has open is rolled back.
    RollBack { session: usize },
}

/// One interleaving of the steps, with the setups before and the teardowns behind them: seen as the
/// list of its tasks.
#[derive(Debug, Drop)]
pub struct Permutation<'s> {
    tasks: Vec<Task<'s>>,
}

impl<'s> Model for Permutation<'s> {
    ghost use Rattle.std.specs.Prelude.{List};
    ghost use Rattle.schedule.specs.declared.task.Task.{Task};

    ghost Value = { List Task };

    ghost view = { λ p. p.tasks.items };
}

impl<'s> Permutation<'s> {
    pub fn new(alloc: Global) -> Self
        ensures { result ≡ [] }
    {
        Permutation {
            tasks: Vec::new(alloc),
        }
    }

    pub fn push(&mut self, task: Task<'s>) -> Result<(), NoMemory>
        ensures ok { OnOk result (self.new ≡ self.old ++ task.entry ∷ []) }
        ensures err { OnErr result (self.new ≡ self.old) }
    {
        self.tasks.push(task)?;
        Ok(())
    }

    pub fn as_slice(&self) -> &[Task<'s>]
        ensures { result.now ≡ self.now }
    {
        &self.tasks
    }
}
