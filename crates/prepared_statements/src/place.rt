//! A place in the list of prepared statements.

ghost use Rattle.std.specs.Prelude.{◌≡◌};
ghost use Rattle.prepared_statements.specs.Taken as spec;

use crate::PreparedStatement;

/// A place: a statement, or the number of the place where the statement is gone, so that no two of these are equal.
#[derive(Drop)]
pub(crate) enum Place {
    Taken(PreparedStatement),
    Empty(usize),
}

impl Place {
    pub(crate) fn is_taken(&self) -> bool
        ensures { result ≡ spec.is_taken self.now }
    {
        match self {
            Place::Taken(_) => true,
            Place::Empty(_) => false,
        }
    }
}
