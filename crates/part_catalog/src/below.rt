ghost use Rattle.std.specs.Prelude.{◌≡◌, ◌≤◌, [], None, length, slice_index_or, IfOk, OnOk, OnErr};
ghost use Rattle.std.specs.List.{insert};
ghost use Rattle.part_catalog.specs.Moved as spec;

use pg_values::NoMemory;
use std::alloc::Global;
use std::marker::Model;

/// The entries below a table in plain order, seen as the list of their places among all entries.
#[derive(Debug, Drop)]
pub struct Below {
    numbers: Vec<u64>,
}

impl Model for Below {
    ghost use Rattle.std.specs.Prelude.{List, ℕ};

    ghost Value = { List ℕ };

    ghost view = { λ b. b.numbers.items };
}

impl Below {
    pub fn new(alloc: Global) -> Self
        ensures { result ≡ [] }
    {
        Below {
            numbers: Vec::new(alloc),
        }
    }

    pub fn numbers(&self) -> &[u64]
        ensures { result.now ≡ self.now }
    {
        &self.numbers
    }

    pub fn insert(&mut self, at: usize, number: u64) -> Result<(), NoMemory>
        requires { at ≤ length self.old }
        ensures ok { OnOk result (self.new ≡ insert self.old at number) }
        ensures err { OnErr result (self.new ≡ self.old) }
    {
        self.numbers.insert(at, number)?;
        Ok(())
    }

    /// The same entries at their new places, without those that have none.
    pub fn moved(&self, alloc: Global, places: &[Option<u64>]) -> Result<Below, NoMemory>
        ensures { IfOk result (λ b. b ≡ spec.moved places.now self.now) }
    {
        let numbers = moved(alloc, &self.numbers, places)?;
        Ok(Below { numbers })
    }
}

fn moved(alloc: Global, numbers: &[u64], places: &[Option<u64>]) -> Result<Vec<u64>, NoMemory>
    ensures { IfOk result (λ found. found.items ≡ spec.moved places.now numbers.now) }
{
    let mut found = Vec::new(alloc);
    for number in numbers {
        if let Some(place) = new_place(places, *number) {
            found.push(place)?;
        }
    }
    Ok(found)
}

fn new_place(places: &[Option<u64>], number: u64) -> Option<u64>
    ensures { result ≡ slice_index_or places.now number None }
{
    match places.get(number as usize) {
        Some(place) => *place,
        None => None,
    }
}
