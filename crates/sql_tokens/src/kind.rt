ghost use Rattle.std.specs.Prelude.{◌≡◌};
ghost use Rattle.sql_tokens.specs.Words as words;

/// What a token is. Words stand first, those that may be names before those that may not, and those
/// of statements and clauses that are left out in one row.
#[derive(Clone, Copy, Debug, PartialEq, Eq)]
pub enum TokenKind {
    Abort,
    Access,
    Alter,
    Attach,
    Begin,
    Between,
    By,
    Cascade,
    Commit,
    Committed,
    Concurrently,
    Costs,
    Date,
    Deallocate,
    Delete,
    Detach,
    Drop,
    End,
    Exclusive,
    Execute,
    Explain,
    Finalize,
    First,
    Hash,
    Insert,
    Int,
    Isolation,
    Last,
    Level,
    List,
    Lock,
    Maxvalue,
    Minvalue,
    Mode,
    Modulus,
    Nulls,
    Of,
    Off,
    Partition,
    Prepare,
    Range,
    Read,
    Regclass,
    Remainder,
    Repeatable,
    Reset,
    Restrict,
    Rollback,
    Row,
    Set,
    Share,
    Start,
    Summary,
    Tableoid,
    Timing,
    Uncommitted,
    Update,
    Work,

    // Left out where no name may stand.
    Exists,
    If,
    Local,
    Transaction,
    Values,
    /// A word of a statement or clause that is left out, which may be a name.
    LeftName,

    // Reserved, and left out.
    Analyze,
    Create,
    Default,
    For,
    From,
    On,
    Only,
    Select,
    To,
    With,
    /// A reserved word of a statement or clause that is left out.
    LeftReserved,

    // Reserved.
    All,
    And,
    As,
    Asc,
    Desc,
    False,
    In,
    Inner,
    Into,
    Is,
    Join,
    Limit,
    Not,
    Null,
    Offset,
    Or,
    Order,
    Table,
    True,
    Where,

    Name,
    QuotedName,
    /// A string between single quotes.
    Text,
    Number,
    /// A number with a point or an exponent.
    Decimal,
    Parameter,

    OpenParenthesis,
    CloseParenthesis,
    Comma,
    Semicolon,
    Dot,
    Equal,
    /// `<>` or `!=`.
    NotEqual,
    Less,
    LessEqual,
    Greater,
    GreaterEqual,
    Plus,
    Minus,
    Star,
    Slash,
    Percent,
    /// `::`.
    TypeCast,

    /// Here the text is no token. It is the last one.
    Fault,
}

/// The first of the words that are left out.
pub const FIRST_LEFT_OUT: TokenKind = TokenKind::Exists;

/// The first of the words that may not be names.
pub const FIRST_RESERVED: TokenKind = TokenKind::Analyze;

/// The first word behind those that are left out.
pub const FIRST_KEPT: TokenKind = TokenKind::All;

pub fn same_kind(a: TokenKind, b: TokenKind) -> bool
    ensures { result ≡ words.is a b }
{
    (a as u8) == (b as u8)
}

/// Whether a token of the kind may stand where a name is wanted.
pub fn is_name(kind: TokenKind) -> bool
    ensures { result ≡ words.is_name kind }
{
    (kind as u8) < (FIRST_RESERVED as u8)
        || same_kind(kind, TokenKind::Name)
        || same_kind(kind, TokenKind::QuotedName)
}

/// Whether a token of the kind belongs to what is left out by name: a word of a statement or clause
/// that is not there, `::`, or a number with a point or an exponent. Most of them may stand elsewhere.
pub fn is_left_out(kind: TokenKind) -> bool
    ensures { result ≡ words.is_left_out kind }
{
    (FIRST_LEFT_OUT as u8) <= (kind as u8) && (kind as u8) < (FIRST_KEPT as u8)
        || same_kind(kind, TokenKind::Decimal)
        || same_kind(kind, TokenKind::TypeCast)
}
