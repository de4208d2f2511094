ghost use Rattle.std.specs.Prelude.{◌≡◌, ◌<◌, ◌==◌, if◌then◌else◌, None, Some, OnOk, length};
ghost use Rattle.std.specs.Option.{option_or};
ghost use Rattle.pg_values.specs.declared.ids.LeafId.{LeafId};
ghost use Rattle.row_change.specs.Places.{noted};

use pg_values::{LeafId, NoMemory};
use std::alloc::Global;

/// What was noted first of each leaf, at the place of its number: a run numbers its leaves from 0 on.
#[derive(Drop)]
pub struct ByLeaf<V: Copy> {
    notes: Vec<Option<V>>,
}

impl<V: Copy> ByLeaf<V> {
    pub fn new(alloc: Global) -> Self
        ensures { (l : LeafId) → noted result l ≡ None }
    {
        ByLeaf {
            notes: Vec::new(alloc),
        }
    }

    pub fn of(&self, leaf: LeafId) -> Option<V>
        ensures { result ≡ noted self.now leaf }
    {
        let place = leaf.number as usize;
        if place < self.notes.len() {
            self.notes[place]
        } else {
            None
        }
    }

    // Makes room for a leaf.
    fn reach(&mut self, leaf: LeafId) -> Result<(), NoMemory>
        ensures room { OnOk result (leaf.number < length self.new.notes.items) }
        ensures same { OnOk result ((l : LeafId) → noted self.new l ≡ noted self.old l) }
    {
        let place = leaf.number as usize;
        if place < self.notes.len() {
            return Ok(());
        }
        self.notes.resize(place + 1, None)?;
        Ok(())
    }

    /// Notes this of the leaf, unless something is noted of it.
    #[tactic(auto, using(crate::proofs::Notes::first_noted, crate::proofs::Notes::still_noted))]
    pub fn note(&mut self, leaf: LeafId, value: V) -> Result<(), NoMemory>
        ensures { OnOk result ((l : LeafId) → noted self.new l ≡ option_or (noted self.old l) (if leaf.number == l.number then Some value else None)) }
    {
        self.reach(leaf)?;
        let place = leaf.number as usize;
        if self.notes[place].is_none() {
            self.notes[place] = Some(value);
        }
        Ok(())
    }
}
