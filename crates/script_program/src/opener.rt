ghost use Rattle.std.specs.Prelude.{◌≡◌, ◌≤◌, ◌+◌, IfOk, length};

use pg_values::{Fault, NoMemory};
use schedule::Database;
use spec_reader::{MOST_SESSIONS, Spec};
use std::alloc::Global;

/// Opens the database of a script, and reads its blocks. An empty type stands for it.
pub trait Opener {
    ghost use Rattle.std.specs.Prelude.{◌≡◌, ◌≤◌, ◌+◌, ℕ, Bool, List, Option, IfOk, length};
    ghost use Rattle.pg_values.specs.declared.fault.Fault.{Fault};
    ghost use Rattle.spec_reader.specs.declared.spec.Spec.{Spec};

    type Db: Database;

    /// What holds of a database that is opened for a script, with trails or without, before anything has happened
    /// in it.
    ghost opens: { Bool → Spec → Self.Db → Type 0 };

    /// Why a text is no block, if it is none.
    ghost refused: { List ℕ → Option Fault };

    /// A database with the script's sessions and the control session, that prints the trails of statements or
    /// does not.
    fn open(alloc: Global, script: &Spec, trail: bool) -> Result<Self::Db, NoMemory>
        requires { length script.now.sessions ≤ MOST_SESSIONS }
        ensures opens { IfOk result (opens trail script.now) }
        ensures count { IfOk result (λ d. Self.Db.count d ≡ length script.now.sessions + 1) };

    /// Why a text is no block, if it is none. Nothing is run.
    fn refusal(alloc: Global, block: &[u8]) -> Result<Option<Fault>, NoMemory>
        ensures { IfOk result (λ fault. fault ≡ refused block.now) };
}
