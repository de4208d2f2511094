ghost use Rattle.std.specs.Prelude.{◌≡◌};
ghost use Rattle.cond_logic.specs.Tables.{no_tables, with_table, table};

use crate::NamedLeaf;
use pg_values::{LeafId, PgText};
use std::marker::Model;

/// The leaves in which the rows of a tuple lie, with the names of their tables. There are four places,
/// one for each FROM item, seen as a record.
#[derive(Debug, Drop)]
pub struct RowTables<'a> {
    first: Option<(LeafId, &'a PgText)>,
    second: Option<(LeafId, &'a PgText)>,
    third: Option<(LeafId, &'a PgText)>,
    fourth: Option<(LeafId, &'a PgText)>,
}

impl<'a> Model for RowTables<'a> {
    ghost use Rattle.cond_logic.specs.Tables.{Tables};
    ghost use Rattle.cond_logic.specs.Lent.{lent_leaf};

    ghost Value = { Tables };

    ghost view = { λ t. record { first = lent_leaf t.first; second = lent_leaf t.second; third = lent_leaf t.third; fourth = lent_leaf t.fourth } };
}

impl<'a> RowTables<'a> {
    /// No table.
    pub fn none() -> RowTables<'a>
        ensures { result ≡ no_tables }
    {
        RowTables {
            first: None,
            second: None,
            third: None,
            fourth: None,
        }
    }

    /// The same tables with this one in the place of that item. There is no place past the fourth.
    pub fn with(self, item: u32, table: &NamedLeaf<'a>) -> RowTables<'a>
        ensures { result ≡ with_table self.entry item table.now }
    {
        let mut tables = self;
        let lent = Some((table.id, table.name));
        match item {
            0 => tables.first = lent,
            1 => tables.second = lent,
            2 => tables.third = lent,
            3 => tables.fourth = lent,
            _ => {}
        }
        tables
    }

    /// The same tables once more.
    pub fn again(&self) -> RowTables<'a>
        ensures { result ≡ self.now }
    {
        RowTables {
            first: self.first,
            second: self.second,
            third: self.third,
            fourth: self.fourth,
        }
    }

    /// The table in the place of that item.
    pub fn table(&self, item: u32) -> Option<NamedLeaf<'a>>
        ensures { result ≡ table self.now item }
    {
        let lent = match item {
            0 => self.first,
            1 => self.second,
            2 => self.third,
            3 => self.fourth,
            _ => None,
        };
        match lent {
            Some((id, name)) => Some(NamedLeaf { id, name }),
            None => None,
        }
    }
}
