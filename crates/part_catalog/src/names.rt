ghost use Rattle.std.specs.Prelude.{◌≡◌, ◌++◌, ◌∷◌, ◌<◌, ℕ, List, [], length, OnOk, OnErr, slice_index_or};
ghost use Rattle.part_catalog.specs.Names.{NamesStand, has_name, last_below};

use indexmap::IndexMap;
use pg_values::NoMemory;
use std::alloc::Global;

/// Each name with the newest table that has it, and each table with the one before it of that name.
#[derive(Drop)]
pub struct Names {
    newest: IndexMap<Vec<u8>, u32>,
    earlier: Vec<Option<u32>>,
}

impl Names {
    pub fn new(alloc: Global) -> Self
        ensures { NamesStand result [] }
    {
        Names {
            newest: IndexMap::new(alloc),
            earlier: Vec::new(alloc),
        }
    }

    /// The newest table of the name.
    pub fn newest(&self, name: &[u8]) -> Option<u32>
        ensures { (named : List (List ℕ)) → NamesStand self.now named → result ≡ last_below (has_name named name.now) (length named) }
    {
        self.newest.get(name).copied()
    }

    /// The newest table of a table's name before it.
    pub fn earlier(&self, table: u32) -> Option<u32>
        ensures { (named : List (List ℕ)) → NamesStand self.now named → table < length named →
            result ≡ last_below (has_name named (slice_index_or named table [])) table }
    {
        match self.earlier.get(table as usize) {
            Some(table) => *table,
            None => None,
        }
    }

    /// Gives the table of the next number this name.
    pub fn add(&mut self, name: Vec<u8>, table: u32) -> Result<(), NoMemory>
        ensures added { OnOk result ((named : List (List ℕ)) → NamesStand self.old named → table ≡ length named →
            NamesStand self.new (named ++ name.items ∷ [])) }
        ensures err { OnErr result ((named : List (List ℕ)) → NamesStand self.old named → NamesStand self.new named) }
    {
        self.earlier.reserve(1)?;
        let before = self.newest.insert(name, table)?;
        self.earlier.push(before)?;
        Ok(())
    }
}
