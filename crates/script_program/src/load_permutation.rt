ghost use Rattle.std.specs.Prelude.{◌≡◌, ◌<◌, OnOk, IfSome, slice_index};
ghost use Rattle.script_program.specs.Draws.{Moves};
ghost use Rattle.script_program.specs.Loads.{Goes};
ghost use Rattle.script_program.specs.LoadScript as spec;

use crate::load::Load;
use crate::load_lines::{SESSIONS, STEPS};
use pg_values::NoMemory;

const USES: u64 = 512;

// The first session that has a step left, from one of them on, cyclically. `given` says of each session how
// many of its steps are used.
fn session_with_step(first: usize, given: &[u64; SESSIONS]) -> Option<usize>
    requires { first < 8 }
    ensures session { result ≡ spec.session_with_step first given.now }
    ensures there { IfSome result (λ session. session < 8) }
    ensures left { IfSome result (λ session. slice_index given.now session < 64) }
{
    for further in 0..SESSIONS {
        let session = (first + further) % SESSIONS;
        if given[session] < STEPS {
            return Some(session);
        }
    }
    None
}

impl Load {
    fn write_use(&mut self, given: &mut [u64; SESSIONS]) -> Result<(), NoMemory>
        ensures { OnOk result (Moves spec.one_use (self.old.state, given.old) self.old.text.items (self.new.state, given.new) self.new.text.items) }
    {
        let first = self.draw(SESSIONS as u64) as usize;
        let Some(session) = session_with_step(first, given) else {
            return Ok(());
        };
        let step = given[session] + 1;
        given[session] = step;
        self.write(b" w")?;
        self.write_number(session as u64 + 1)?;
        self.write(b"_")?;
        self.write_number(step)
    }

    /// Writes the permutation, in which each step is used once.
    pub(crate) fn write_permutation(&mut self) -> Result<(), NoMemory>
        ensures { OnOk result (Goes spec.permutation_line self.old self.new) }
    {
        let mut given = [0; SESSIONS];
        self.write(b"permutation")?;
        for _ in 0..USES {
            self.write_use(&mut given)?;
        }
        self.write(b"\n")
    }
}
