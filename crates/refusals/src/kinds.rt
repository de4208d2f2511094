ghost use Rattle.std.specs.Prelude.{◌≡◌};
ghost use Rattle.refusals.specs.Kinds as kinds;

use pg_values::Kind;

/// What a kind is called in a refusal.
pub fn kind_word(kind: Kind) -> &'static [u8]
    ensures { result.now ≡ kinds.kind_word kind }
{
    match kind {
        Kind::Int4 => b"integer",
        Kind::Int8 => b"bigint",
        Kind::Text => b"text",
        Kind::Day => b"date",
        Kind::Truth => b"boolean",
    }
}
