use pg_values::{NoMemory, PgText, Which};

/// Why a text was not read.
#[derive(Debug, Drop)]
pub enum ParseRefused {
    /// The byte of the text from which on it begins nothing that can be read. Where the text ends
    /// too soon, it is the text's length.
    Syntax { at: usize },
    /// What begins there is left out: the word in capitals, `::`, or a number with a point or an
    /// exponent.
    Left { word: PgText },
    /// A limit is passed there.
    TooMany { which: Which },
    NoMemory,
}

impl From<NoMemory> for ParseRefused {
    ghost use Rattle.std.specs.Prelude.{◌≡◌};
    ghost use Rattle.sql_expressions.specs.declared.refused.ParseRefused.TheVariants as refusals;

    ghost from_gives = { λ _ e. e ≡ refusals.NoMemory };

    fn from(_: NoMemory) -> Self {
        ParseRefused::NoMemory
    }
}
