//! Keys whose values a condition gives. They are looked up when they are asked for.

ghost use Rattle.std.specs.Prelude.{◌≡◌, ◌<◌, ◌++◌, [], ◌∷◌, false, true};
ghost use Rattle.cond_logic.specs.Trees.{cond_tree};
ghost use Rattle.prune_steps.specs.Atoms.{given};
ghost use Rattle.prune_steps.specs.Asking.{asked_by, known_in, given_values};

use crate::asking::Asking;
use crate::known::known_given;
use bound_forms::Key;
use cond_logic::Cond;
use pg_values::Value;

/// The value of a comparison, behind those that the flattened AND gives the first key columns.
#[derive(Drop)]
pub(crate) struct ChainKey<'c> {
    pub(crate) asking: &'c Asking<'c>,
    pub(crate) root: &'c Cond,
    pub(crate) first: usize,
    pub(crate) last: &'c Value,
    ghost few: { first < 18446744073709551615 },
}

impl<'c> Key for ChainKey<'c> {
    ghost values = { λ k. given_values (given (asked_by k.asking.now) false (known_in k.asking.now (cond_tree k.root.now))) k.first ++ k.last.now ∷ [] };

    fn len(&self) -> usize {
        self.first + 1
    }

    fn value(&self, i: usize) -> &Value {
        if i >= self.first {
            return self.last;
        }
        match known_given(self.asking, false, self.root, i) {
            Some(value) => value,
            None => self.asking.null,
        }
    }
}

/// The values and nulls that the flattened AND gives the first key columns.
#[derive(Drop)]
pub(crate) struct GivenKey<'c> {
    pub(crate) asking: &'c Asking<'c>,
    pub(crate) root: &'c Cond,
    pub(crate) first: usize,
}

impl<'c> Key for GivenKey<'c> {
    ghost values = { λ k. given_values (given (asked_by k.asking.now) true (known_in k.asking.now (cond_tree k.root.now))) k.first };

    fn len(&self) -> usize {
        self.first
    }

    fn value(&self, i: usize) -> &Value {
        match known_given(self.asking, true, self.root, i) {
            Some(value) => value,
            None => self.asking.null,
        }
    }
}
