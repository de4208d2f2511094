ghost use Rattle.std.specs.Prelude.{◌≡◌};

use history::{Columns, TableShape};
use pg_values::{NoMemory, PgText, Which};

/// A table as it is to be made.
#[derive(Debug, Drop)]
pub struct NewTable {
    pub name: PgText,
    pub columns: Columns,
    pub shape: TableShape,
}

/// Why the catalogue did not take a table or an entry: a limit would be passed, or memory ran out.
#[derive(Clone, Copy, Debug, PartialEq, Eq)]
pub enum CatalogRefused {
    Full { which: Which },
    NoMemory,
}

impl From<NoMemory> for CatalogRefused {
    ghost use Rattle.part_catalog.specs.declared.new_table.CatalogRefused.TheVariants as refusals;

    ghost from_gives = { λ _ e. e ≡ refusals.NoMemory };

    fn from(_: NoMemory) -> Self {
        CatalogRefused::NoMemory
    }
}
