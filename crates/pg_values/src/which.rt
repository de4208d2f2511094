ghost use Rattle.std.specs.Prelude.{◌≡◌};
ghost use Rattle.pg_values.specs.Words.{which_word};

/// What there are too many of.
#[derive(Clone, Copy, Debug, PartialEq, Eq)]
pub enum Which {
    Statements,
    Tables,
    Columns,
    KeyColumns,
    TablesInFrom,
    Partitions,
    Levels,
    BytesOfAName,
    BytesOfAText,
    NestedExpressions,
    Versions,
    BytesOfRows,
    Tuples,
    BytesOfTuples,
    Scans,
    Commands,
    Sessions,
    Steps,
    Permutations,
    SetupBlocks,
    Uses,
    Markers,
}

impl Which {
    /// The word for it, as a fault tells it.
    pub fn word(self) -> &'static [u8]
        ensures { result.now ≡ which_word self }
    {
        match self {
            Which::Statements => b"statements",
            Which::Tables => b"tables",
            Which::Columns => b"columns",
            Which::KeyColumns => b"key columns",
            Which::TablesInFrom => b"tables in FROM",
            Which::Partitions => b"partitions",
            Which::Levels => b"levels",
            Which::BytesOfAName => b"bytes of a name",
            Which::BytesOfAText => b"bytes of a text",
            Which::NestedExpressions => b"nested expressions",
            Which::Versions => b"versions",
            Which::BytesOfRows => b"bytes of rows",
            Which::Tuples => b"tuples",
            Which::BytesOfTuples => b"bytes of tuples",
            Which::Scans => b"scans",
            Which::Commands => b"commands",
            Which::Sessions => b"sessions",
            Which::Steps => b"steps",
            Which::Permutations => b"permutations",
            Which::SetupBlocks => b"setup blocks",
            Which::Uses => b"uses",
            Which::Markers => b"markers",
        }
    }
}
