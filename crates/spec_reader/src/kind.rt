ghost use Rattle.std.specs.Prelude.{◌≡◌};
ghost use Rattle.spec_reader.specs.Words as words;

/// What a token is.
#[derive(Clone, Copy, Debug, PartialEq, Eq)]
pub enum ScriptTokenKind {
    Setup,
    Teardown,
    Session,
    Step,
    Permutation,
    Notices,

    Name,
    /// A name between double quotes.
    QuotedName,
    /// A text between `{` and the first `}`.
    Block,
    Number,

    OpenParenthesis,
    CloseParenthesis,
    Comma,
    Star,

    /// What is no token.
    Fault,
}

pub fn same_kind(a: ScriptTokenKind, b: ScriptTokenKind) -> bool
    ensures { result ≡ words.is a b }
{
    (a as u8) == (b as u8)
}

/// Whether a token of the kind is a name.
pub fn is_name(kind: ScriptTokenKind) -> bool
    ensures { result ≡ words.is_name kind }
{
    same_kind(kind, ScriptTokenKind::Name) || same_kind(kind, ScriptTokenKind::QuotedName)
}
