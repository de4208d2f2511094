ghost use Rattle.std.specs.Prelude.{◌≡◌, IfOk};

use pg_values::NoMemory;
use statement_steps::SessionNames;
use std::alloc::Global;

/// What a run is told beside its script.
#[derive(Debug, Drop)]
pub struct Options {
    /// The names of its sessions, the control session's first.
    pub names: SessionNames,
    /// Whether the trails of statements are printed.
    pub trail: bool,
}

fn copied(alloc: Global, names: &SessionNames) -> Result<SessionNames, NoMemory>
    ensures { IfOk result (λ copy. copy ≡ names.now) }
{
    let mut copy = SessionNames::new(alloc);
    for name in names.as_slice() {
        copy.push(name.copy(alloc)?)?;
    }
    Ok(copy)
}

impl Options {
    pub(crate) fn copy(&self, alloc: Global) -> Result<Self, NoMemory>
        ensures { IfOk result (λ k. k ≡ self.now) }
    {
        Ok(Options {
            names: copied(alloc, &self.names)?,
            trail: self.trail,
        })
    }
}
