ghost use Rattle.std.specs.Prelude.{◌≡◌, ◌<◌, OnOk};
ghost use Rattle.script_program.specs.Draws.{fixed};
ghost use Rattle.script_program.specs.Loads.{Goes};
ghost use Rattle.script_program.specs.LoadScript as spec;

use crate::load::Load;
use pg_values::NoMemory;

pub(crate) const PARTITIONS: u64 = 32;

const KEYS: u64 = 320;

const VALUES: u64 = 1000;

impl Load {
    /// Writes a row: a key and a value.
    pub(crate) fn write_row(&mut self) -> Result<(), NoMemory>
        ensures { OnOk result (Goes spec.row self.old self.new) }
    {
        self.write(b"(")?;
        self.write_drawn(KEYS)?;
        self.write(b", ")?;
        self.write_drawn(VALUES)?;
        self.write(b")")
    }

    /// Writes the bound of a partition: ten keys.
    pub(crate) fn write_bound(&mut self, partition: u64) -> Result<(), NoMemory>
        requires { partition < 32 }
        ensures { OnOk result (Goes (fixed (spec.bound partition)) self.old self.new) }
    {
        self.write(b"FROM (")?;
        self.write_number(10 * partition)?;
        self.write(b") TO (")?;
        self.write_number(10 * partition + 10)?;
        self.write(b")")
    }

    fn write_select(&mut self) -> Result<(), NoMemory>
        ensures { OnOk result (Goes spec.select self.old self.new) }
    {
        self.write_drawn_between(b"SELECT * FROM g WHERE k = ", KEYS, b";")
    }

    fn write_insert(&mut self) -> Result<(), NoMemory>
        ensures { OnOk result (Goes spec.insert self.old self.new) }
    {
        self.write(b"INSERT INTO g VALUES ")?;
        self.write_row()?;
        self.write(b";")
    }

    fn write_raise(&mut self) -> Result<(), NoMemory>
        ensures { OnOk result (Goes spec.raise self.old self.new) }
    {
        self.write_drawn_between(b"UPDATE g SET v = v + 1 WHERE k < ", KEYS, b";")
    }

    fn write_move(&mut self) -> Result<(), NoMemory>
        ensures { OnOk result (Goes spec.move self.old self.new) }
    {
        self.write(b"UPDATE g SET k = ")?;
        self.write_drawn(KEYS)?;
        self.write_drawn_between(b" WHERE k = ", KEYS, b";")
    }

    fn write_delete(&mut self) -> Result<(), NoMemory>
        ensures { OnOk result (Goes spec.delete self.old self.new) }
    {
        self.write_drawn_between(b"DELETE FROM g WHERE k = ", KEYS, b";")
    }

    fn write_detach(&mut self) -> Result<(), NoMemory>
        ensures { OnOk result (Goes spec.detach self.old self.new) }
    {
        let before = b"ALTER TABLE g DETACH PARTITION g";
        self.write_drawn_between(before, PARTITIONS, b" CONCURRENTLY;")
    }

    fn write_attach(&mut self) -> Result<(), NoMemory>
        ensures { OnOk result (Goes spec.attach self.old self.new) }
    {
        let partition = self.draw(PARTITIONS);
        self.write(b"ALTER TABLE g ATTACH PARTITION g")?;
        self.write_number(partition)?;
        self.write(b" FOR VALUES ")?;
        self.write_bound(partition)?;
        self.write(b";")
    }

    /// Writes one of the ten statements, which is drawn first.
    pub(crate) fn write_statement(&mut self) -> Result<(), NoMemory>
        ensures { OnOk result (Goes spec.statement self.old self.new) }
    {
        match self.draw(10) {
            0 => self.write(b"BEGIN;"),
            1 => self.write(b"COMMIT;"),
            2 | 3 => self.write_select(),
            4 => self.write_insert(),
            5 => self.write_raise(),
            6 => self.write_move(),
            7 => self.write_delete(),
            8 => self.write_detach(),
            _ => self.write_attach(),
        }
    }
}
