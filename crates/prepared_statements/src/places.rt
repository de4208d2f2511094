//! Prepared statements in an order, each of which leaves an empty place behind, so that all others keep theirs.

ghost use Rattle.std.specs.Prelude.{◌≡◌, ◌++◌, ◌∷◌, [], IsTrue, IfOk, OnErr, OnOk, find, if◌then◌else◌, option_copied};
ghost use Rattle.std.specs.Bool.{OnFalse};
ghost use Rattle.std.specs.List.{list_any};
ghost use Rattle.indexmap.specs.IndexSet.{remove_key};
ghost use Rattle.prepared_statements.specs.Names.{has_name};
ghost use Rattle.prepared_statements.specs.Taken.{are_numbered};

use crate::PreparedStatement;
use crate::name::Name;
use crate::place::Place;
use indexmap::IndexSet;
use pg_values::NoMemory;
use std::alloc::Global;

// Fewer places are not gone through, since the whole hash table, which does not shrink, is written anew where some go.
const FEW: usize = 1024;

/// Statements whose names differ, in the order in which they were added.
#[derive(Drop)]
pub(crate) struct Places {
    places: IndexSet<Place>,
    // How many there were when the empty ones were last taken out.
    left: usize,
    ghost numbered: { IsTrue (are_numbered 0 places.keys) },
}

impl Places {
    ghost use Rattle.prepared_statements.specs.Kept.{statements_of};

    pub(crate) fn new(alloc: Global) -> Self
        ensures { statements_of result ≡ [] }
    {
        Places {
            places: IndexSet::new(alloc),
            left: 0,
        }
    }

    pub(crate) fn has(&self, name: &[u8]) -> bool
        ensures { result ≡ list_any (has_name name.now) (statements_of self.now) }
    {
        self.places.contains(Name { bytes: name })
    }

    pub(crate) fn find(&self, name: &[u8]) -> Option<&PreparedStatement>
        ensures { option_copied result ≡ find (has_name name.now) (statements_of self.now) }
    {
        match self.places.get(Name { bytes: name })? {
            Place::Taken(statement) => Some(statement),
            Place::Empty(_) => None,
        }
    }

    /// One more, unless its name is there.
    pub(crate) fn add(&mut self, statement: PreparedStatement) -> Result<(), NoMemory>
        ensures added { OnOk result (statements_of self.new ≡ (if list_any (has_name statement.name) (statements_of self.old) then statements_of self.old else statements_of self.old ++ statement ∷ [])) }
        ensures kept { OnErr result (statements_of self.new ≡ statements_of self.old) }
    {
        self.take_out_empty();
        let _is_new = self.places.insert(Place::Taken(statement))?;
        Ok(())
    }

    /// Removes the statement of the name, and returns whether it was there. No other one moves.
    pub(crate) fn remove(&mut self, name: &[u8]) -> Result<bool, NoMemory>
        ensures found { IfOk result (λ found. found ≡ list_any (has_name name.now) (statements_of self.old)) }
        ensures left { OnOk result (statements_of self.new ≡ remove_key (has_name name.now) (statements_of self.old)) }
        ensures absent { IfOk result (λ found. OnFalse found (statements_of self.new ≡ statements_of self.old)) }
        ensures kept { OnErr result (statements_of self.new ≡ statements_of self.old) }
    {
        let Some(number) = self.places.get_index_of(Name { bytes: name }) else {
            return Ok(false);
        };
        // What is inserted stands last, and takes the place of what is removed.
        let _is_new = self.places.insert(Place::Empty(number))?;
        let _statement = self.places.swap_remove_index(number);
        Ok(true)
    }

    pub(crate) fn clear(&mut self)
        ensures { statements_of self.new ≡ [] }
    {
        self.places.clear();
        self.left = 0;
    }

    // Once there are more than twice as many places as were left the last time, the empty ones go.
    fn take_out_empty(&mut self)
        ensures { statements_of self.new ≡ statements_of self.old }
    {
        if self.places.len() < FEW || self.places.len() / 2 <= self.left {
            return;
        }
        self.places.retain(|place| place.is_taken());
        self.left = self.places.len();
    }
}
