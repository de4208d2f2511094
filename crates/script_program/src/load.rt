ghost use Rattle.std.specs.Prelude.{◌≡◌, ◌<◌, [], OnOk, decimal};
ghost use Rattle.script_program.specs.Draws.{draw, drawn, fixed, next_state};
ghost use Rattle.script_program.specs.Loads.{Goes, drawn_between};

use pg_values::NoMemory;
use std::alloc::Global;

const MULTIPLIER: u64 = 6_364_136_223_846_793_005;

const INCREMENT: u64 = 1_442_695_040_888_963_407;

/// A script as far as it is made, and the state from which numbers are drawn for it.
#[derive(Drop)]
pub(crate) struct Load {
    pub(crate) text: Vec<u8>,
    pub(crate) state: u64,
}

impl Load {
    pub(crate) fn new(alloc: Global, seed: u64) -> Load
        ensures text { result.text.items ≡ [] }
        ensures state { result.state ≡ seed }
    {
        Load {
            text: Vec::new(alloc),
            state: seed,
        }
    }

    /// A number below n.
    pub(crate) fn draw(&mut self, n: u64) -> u64
        requires { 0 < n }
        ensures number { result ≡ draw n self.old.state }
        ensures below { result < n }
        ensures state { self.new.state ≡ next_state self.old.state }
        ensures text { self.new.text ≡ self.old.text }
    {
        self.state = self.state.wrapping_mul(MULTIPLIER).wrapping_add(INCREMENT);
        (self.state >> 33) % n
    }

    pub(crate) fn write(&mut self, text: &[u8]) -> Result<(), NoMemory>
        ensures { OnOk result (Goes (fixed text.now) self.old self.new) }
    {
        self.text.extend_from_slice(text)?;
        Ok(())
    }

    pub(crate) fn write_number(&mut self, n: u64) -> Result<(), NoMemory>
        ensures { OnOk result (Goes (fixed (decimal n)) self.old self.new) }
    {
        let mut digits = itoa::Buffer::new();
        self.write(digits.format(n).as_bytes())
    }

    /// Writes a number below n that is drawn.
    pub(crate) fn write_drawn(&mut self, n: u64) -> Result<(), NoMemory>
        requires { 0 < n }
        ensures { OnOk result (Goes (drawn n) self.old self.new) }
    {
        let number = self.draw(n);
        self.write_number(number)
    }

    /// Writes such a number between two texts.
    pub(crate) fn write_drawn_between(
        &mut self,
        before: &[u8],
        n: u64,
        behind: &[u8],
    ) -> Result<(), NoMemory>
        requires { 0 < n }
        ensures { OnOk result (Goes (drawn_between before.now n behind.now) self.old self.new) }
    {
        self.write(before)?;
        self.write_drawn(n)?;
        self.write(behind)
    }
}
