ghost use Rattle.std.specs.Prelude.{◌≡◌, [], ◌∷◌, ◌++◌, is_none, IfOk, OnOk, if◌then◌else◌};
ghost use Rattle.spec_reader.specs.Faults as faults;

use indexmap::IndexMap;
use pg_values::NoMemory;
use std::alloc::Global;
use std::marker::Model;

/// The names of steps, each with the number of its session: seen as their list, in order.
#[derive(Drop)]
pub struct StepNames<'a> {
    sessions: IndexMap<&'a [u8], usize>,
}

impl<'a> Model for StepNames<'a> {
    ghost use Rattle.std.specs.Prelude.{List, ℕ};
    ghost use Rattle.spec_reader.specs.Faults.{shown};

    ghost Value = { List (List ℕ × ℕ) };

    ghost view = { λ s. shown s.sessions.entries };
}

impl<'a> StepNames<'a> {
    pub fn new(alloc: Global) -> Self
        ensures { result ≡ [] }
    {
        StepNames {
            sessions: IndexMap::new(alloc),
        }
    }

    /// The session of a step.
    pub fn session_of(&self, name: &[u8]) -> Option<usize>
        ensures { result ≡ faults.session_of self.now name.now }
    {
        self.sessions.get(name).copied()
    }

    /// Notes a step, unless it is there already.
    pub fn add(&mut self, name: &'a [u8], session: usize) -> Result<bool, NoMemory>
        ensures added { IfOk result (λ new. new ≡ is_none (faults.session_of self.old name.now)) }
        ensures names { IfOk result (λ new. self.new ≡ (if new then self.old ++ (name.now, session) ∷ [] else self.old)) }
    {
        if self.session_of(name).is_some() {
            return Ok(false);
        }
        self.sessions.insert(name, session)?;
        Ok(true)
    }
}
