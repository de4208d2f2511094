ghost use Rattle.std.specs.Prelude.{◌≡◌, ◌<◌, ◌++◌, OnOk, OnErr, IfOk};
ghost use Rattle.script_program.specs.Draws.{fixed};
ghost use Rattle.script_program.specs.Loads.{Goes};
ghost use Rattle.script_program.specs.LoadScript as spec;

use crate::load::Load;
use crate::load_statements::PARTITIONS;
use pg_values::NoMemory;
use std::alloc::Global;

pub(crate) const SESSIONS: usize = 8;

pub(crate) const STEPS: u64 = 64;

const ROWS: u64 = 512;

impl Load {
    fn write_partition_line(&mut self, partition: u64) -> Result<(), NoMemory>
        requires { partition < 32 }
        ensures { OnOk result (Goes (spec.partition_line partition) self.old self.new) }
    {
        self.write(b"setup { CREATE TABLE g")?;
        self.write_number(partition)?;
        self.write(b" PARTITION OF g FOR VALUES ")?;
        self.write_bound(partition)?;
        self.write(b"; }\n")
    }

    fn write_rows_line(&mut self) -> Result<(), NoMemory>
        ensures { OnOk result (Goes spec.rows_line self.old self.new) }
    {
        self.write(b"setup { INSERT INTO g VALUES ")?;
        self.write_row()?;
        for _ in 0..ROWS - 1 {
            self.write(b", ")?;
            self.write_row()?;
        }
        self.write(b"; }\n")
    }

    fn write_step(&mut self, session: u64, step: u64) -> Result<(), NoMemory>
        ensures { OnOk result (Goes (spec.step_line session step) self.old self.new) }
    {
        self.write(b"step w")?;
        self.write_number(session)?;
        self.write(b"_")?;
        self.write_number(step)?;
        self.write(b" { ")?;
        self.write_statement()?;
        self.write(b" }\n")
    }

    fn write_session(&mut self, session: u64) -> Result<(), NoMemory>
        ensures { OnOk result (Goes (spec.session_lines session) self.old self.new) }
    {
        self.write(b"session w")?;
        self.write_number(session)?;
        self.write(b"\n")?;
        for step in 0..STEPS {
            self.write_step(session, step + 1)?;
        }
        Ok(())
    }

    fn write_setups(&mut self) -> Result<(), NoMemory>
        ensures { OnOk result (Goes spec.setups self.old self.new) }
    {
        self.write(b"setup { CREATE TABLE g (k int, v int) PARTITION BY RANGE (k); }\n")?;
        for partition in 0..PARTITIONS {
            self.write_partition_line(partition)?;
        }
        self.write_rows_line()
    }

    fn write_sessions(&mut self) -> Result<(), NoMemory>
        ensures { OnOk result (Goes spec.sessions self.old self.new) }
    {
        for session in 0..SESSIONS as u64 {
            self.write_session(session + 1)?;
        }
        Ok(())
    }
}

fn load_of(alloc: Global, seed: u64) -> Result<Vec<u8>, NoMemory>
    ensures { IfOk result (λ text. text.items ≡ spec.load seed) }
{
    let mut load = Load::new(alloc, seed);
    load.write_setups()?;
    load.write_sessions()?;
    load.write_permutation()?;
    Ok(load.text)
}

/// Appends the script of a seed.
pub fn gen_script(alloc: Global, seed: u64, out: &mut Vec<u8>) -> Result<(), NoMemory>
    ensures ok { OnOk result (out.new.items ≡ out.old.items ++ spec.load seed) }
    ensures err { OnErr result (out.new.items ≡ out.old.items) }
{
    let text = load_of(alloc, seed)?;
    out.extend_from_slice(&text)?;
    Ok(())
}
