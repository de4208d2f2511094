use pg_values::{LeafId, PgText};
use std::marker::Model;

/// A leaf, and the name of its table, lent.
#[derive(Debug, Drop)]
pub struct NamedLeaf<'t> {
    pub id: LeafId,
    pub name: &'t PgText,
}

impl<'t> Model for NamedLeaf<'t> {
    ghost use Rattle.cond_logic.specs.Tables.{Leaf};

    ghost Value = { Leaf };

    ghost view = { λ l. record { id = l.id; name = l.name.now } };
}
