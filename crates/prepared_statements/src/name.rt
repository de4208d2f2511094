//! Prepared statements are told from each other, and found, by their names, and empty places by their numbers.

ghost use Rattle.std.specs.Prelude.{◌∷◌, []};
ghost use Rattle.std.specs.Cmp.{on_equiv, on_per, partial_equiv_from_equiv};
ghost use Rattle.std.specs.Cmp.Lexicographic.{bytes_decides, nat_list_eq_equiv};
ghost use Rattle.std.specs.Str.{bytes_eq};
ghost use Rattle.std.proofs.Common.{ap};
ghost use Rattle.prepared_statements.specs.Names.{bears, bytes_of, hashed, key_of, key_of_name};

use crate::place::Place;
use indexmap::Equivalent;
use std::hash::{Hash, Hasher};

impl PartialEq for Place {
    ghost eq = { λ a b. bytes_eq (key_of a) (key_of b) };

    ghost laws = { on_per key_of (partial_equiv_from_equiv nat_list_eq_equiv) };

    fn eq(&self, other: &Place) -> bool {
        match self {
            Place::Taken(statement) => match other {
                Place::Taken(other) => statement.name() == other.name(),
                Place::Empty(_) => false,
            },
            Place::Empty(number) => match other {
                Place::Taken(_) => false,
                Place::Empty(other) => *number == *other,
            },
        }
    }
}

impl Eq for Place {
    ghost laws = { on_equiv key_of nat_list_eq_equiv };
}

impl Hash for Place {
    ghost hash_input = { λ p. hashed (key_of p) };

    ghost respects_eq = { λ a b h. ap hashed ((bytes_decides (key_of a) (key_of b)).0 h) };

    fn hash<H: Hasher>(&self, state: &mut H) {
        match self {
            Place::Taken(statement) => state.write(statement.name()),
            Place::Empty(number) => state.write_usize(*number),
        }
    }
}

/// The name of a prepared statement, by which it is found.
#[derive(Clone, Copy)]
pub(crate) struct Name<'a> {
    pub(crate) bytes: &'a [u8],
}

impl PartialEq for Name<'_> {
    ghost eq = { λ a b. bytes_eq (bytes_of a) (bytes_of b) };

    ghost laws = { on_per bytes_of (partial_equiv_from_equiv nat_list_eq_equiv) };

    fn eq(&self, other: &Name<'_>) -> bool {
        self.bytes == other.bytes
    }
}

impl Eq for Name<'_> {
    ghost laws = { on_equiv bytes_of nat_list_eq_equiv };
}

impl Hash for Name<'_> {
    ghost hash_input = { λ n. bytes_of n ∷ [] };

    ghost respects_eq = { λ a b h. ap (λ n. n ∷ []) ((bytes_decides (bytes_of a) (bytes_of b)).0 h) };

    fn hash<H: Hasher>(&self, state: &mut H) {
        state.write(self.bytes);
    }
}

impl Equivalent<Place> for Name<'_> {
    ghost equivalent = { λ n p. bears (bytes_of n) p };

    ghost respects_hash = { λ n p h. ap hashed ((bytes_decides (key_of_name (bytes_of n)) (key_of p)).0 h) };

    ghost respects_eq = { λ n p q. nat_list_eq_equiv.congr (key_of_name (bytes_of n)) (key_of p) (key_of q) };

    fn equivalent(&self, key: &Place) -> bool {
        match key {
            Place::Taken(statement) => self.bytes == statement.name(),
            Place::Empty(_) => false,
        }
    }
}
