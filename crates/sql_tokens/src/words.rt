ghost use Rattle.std.specs.Prelude.{◌≡◌, map, false};
ghost use Rattle.std.specs.Str.{str_eq_ignore_ascii_case};
ghost use Rattle.sql_tokens.specs.Words as words;

use crate::TokenKind;

const TWO: [(&[u8], TokenKind); 10] = [
    (b"by", TokenKind::By),
    (b"of", TokenKind::Of),
    (b"if", TokenKind::If),
    (b"on", TokenKind::On),
    (b"to", TokenKind::To),
    (b"do", TokenKind::LeftReserved),
    (b"as", TokenKind::As),
    (b"in", TokenKind::In),
    (b"is", TokenKind::Is),
    (b"or", TokenKind::Or),
];

const THREE: [(&[u8], TokenKind); 10] = [
    (b"end", TokenKind::End),
    (b"int", TokenKind::Int),
    (b"off", TokenKind::Off),
    (b"row", TokenKind::Row),
    (b"set", TokenKind::Set),
    (b"for", TokenKind::For),
    (b"all", TokenKind::All),
    (b"and", TokenKind::And),
    (b"asc", TokenKind::Asc),
    (b"not", TokenKind::Not),
];

const FOUR: [(&[u8], TokenKind); 28] = [
    (b"date", TokenKind::Date),
    (b"drop", TokenKind::Drop),
    (b"hash", TokenKind::Hash),
    (b"last", TokenKind::Last),
    (b"list", TokenKind::List),
    (b"lock", TokenKind::Lock),
    (b"mode", TokenKind::Mode),
    (b"read", TokenKind::Read),
    (b"work", TokenKind::Work),
    (b"call", TokenKind::LeftName),
    (b"copy", TokenKind::LeftName),
    (b"rule", TokenKind::LeftName),
    (b"show", TokenKind::LeftName),
    (b"temp", TokenKind::LeftName),
    (b"view", TokenKind::LeftName),
    (b"from", TokenKind::From),
    (b"only", TokenKind::Only),
    (b"with", TokenKind::With),
    (b"case", TokenKind::LeftReserved),
    (b"cast", TokenKind::LeftReserved),
    (b"full", TokenKind::LeftReserved),
    (b"left", TokenKind::LeftReserved),
    (b"like", TokenKind::LeftReserved),
    (b"desc", TokenKind::Desc),
    (b"into", TokenKind::Into),
    (b"join", TokenKind::Join),
    (b"null", TokenKind::Null),
    (b"true", TokenKind::True),
];

const FIVE: [(&[u8], TokenKind); 31] = [
    (b"abort", TokenKind::Abort),
    (b"alter", TokenKind::Alter),
    (b"begin", TokenKind::Begin),
    (b"costs", TokenKind::Costs),
    (b"first", TokenKind::First),
    (b"level", TokenKind::Level),
    (b"nulls", TokenKind::Nulls),
    (b"range", TokenKind::Range),
    (b"reset", TokenKind::Reset),
    (b"share", TokenKind::Share),
    (b"start", TokenKind::Start),
    (b"local", TokenKind::Local),
    (b"close", TokenKind::LeftName),
    (b"index", TokenKind::LeftName),
    (b"merge", TokenKind::LeftName),
    (b"check", TokenKind::LeftReserved),
    (b"cross", TokenKind::LeftReserved),
    (b"fetch", TokenKind::LeftReserved),
    (b"grant", TokenKind::LeftReserved),
    (b"group", TokenKind::LeftReserved),
    (b"ilike", TokenKind::LeftReserved),
    (b"outer", TokenKind::LeftReserved),
    (b"right", TokenKind::LeftReserved),
    (b"union", TokenKind::LeftReserved),
    (b"using", TokenKind::LeftReserved),
    (b"false", TokenKind::False),
    (b"inner", TokenKind::Inner),
    (b"limit", TokenKind::Limit),
    (b"order", TokenKind::Order),
    (b"table", TokenKind::Table),
    (b"where", TokenKind::Where),
];

const SIX: [(&[u8], TokenKind); 22] = [
    (b"access", TokenKind::Access),
    (b"attach", TokenKind::Attach),
    (b"commit", TokenKind::Commit),
    (b"delete", TokenKind::Delete),
    (b"detach", TokenKind::Detach),
    (b"insert", TokenKind::Insert),
    (b"timing", TokenKind::Timing),
    (b"update", TokenKind::Update),
    (b"exists", TokenKind::Exists),
    (b"values", TokenKind::Values),
    (b"listen", TokenKind::LeftName),
    (b"notify", TokenKind::LeftName),
    (b"nowait", TokenKind::LeftName),
    (b"revoke", TokenKind::LeftName),
    (b"vacuum", TokenKind::LeftName),
    (b"create", TokenKind::Create),
    (b"select", TokenKind::Select),
    (b"except", TokenKind::LeftReserved),
    (b"having", TokenKind::LeftReserved),
    (b"unique", TokenKind::LeftReserved),
    (b"window", TokenKind::LeftReserved),
    (b"offset", TokenKind::Offset),
];

const SEVEN: [(&[u8], TokenKind); 23] = [
    (b"between", TokenKind::Between),
    (b"cascade", TokenKind::Cascade),
    (b"execute", TokenKind::Execute),
    (b"explain", TokenKind::Explain),
    (b"modulus", TokenKind::Modulus),
    (b"prepare", TokenKind::Prepare),
    (b"summary", TokenKind::Summary),
    (b"buffers", TokenKind::LeftName),
    (b"cluster", TokenKind::LeftName),
    (b"comment", TokenKind::LeftName),
    (b"declare", TokenKind::LeftName),
    (b"exclude", TokenKind::LeftName),
    (b"include", TokenKind::LeftName),
    (b"release", TokenKind::LeftName),
    (b"trigger", TokenKind::LeftName),
    (b"verbose", TokenKind::LeftName),
    (b"analyze", TokenKind::Analyze),
    (b"default", TokenKind::Default),
    (b"collate", TokenKind::LeftReserved),
    (b"foreign", TokenKind::LeftReserved),
    (b"natural", TokenKind::LeftReserved),
    (b"primary", TokenKind::LeftReserved),
    (b"similar", TokenKind::LeftReserved),
];

const EIGHT: [(&[u8], TokenKind); 13] = [
    (b"finalize", TokenKind::Finalize),
    (b"maxvalue", TokenKind::Maxvalue),
    (b"minvalue", TokenKind::Minvalue),
    (b"regclass", TokenKind::Regclass),
    (b"restrict", TokenKind::Restrict),
    (b"rollback", TokenKind::Rollback),
    (b"tableoid", TokenKind::Tableoid),
    (b"function", TokenKind::LeftName),
    (b"inherits", TokenKind::LeftName),
    (b"prepared", TokenKind::LeftName),
    (b"truncate", TokenKind::LeftName),
    (b"unlogged", TokenKind::LeftName),
    (b"distinct", TokenKind::LeftReserved),
];

const NINE: [(&[u8], TokenKind); 11] = [
    (b"committed", TokenKind::Committed),
    (b"exclusive", TokenKind::Exclusive),
    (b"isolation", TokenKind::Isolation),
    (b"partition", TokenKind::Partition),
    (b"remainder", TokenKind::Remainder),
    (b"generated", TokenKind::LeftName),
    (b"recursive", TokenKind::LeftName),
    (b"savepoint", TokenKind::LeftName),
    (b"temporary", TokenKind::LeftName),
    (b"intersect", TokenKind::LeftReserved),
    (b"returning", TokenKind::LeftReserved),
];

const TEN: [(&[u8], TokenKind); 4] = [
    (b"deallocate", TokenKind::Deallocate),
    (b"repeatable", TokenKind::Repeatable),
    (b"constraint", TokenKind::LeftReserved),
    (b"references", TokenKind::LeftReserved),
];

const ELEVEN: [(&[u8], TokenKind); 3] = [
    (b"uncommitted", TokenKind::Uncommitted),
    (b"transaction", TokenKind::Transaction),
    (b"tablesample", TokenKind::LeftReserved),
];

const TWELVE: [(&[u8], TokenKind); 3] = [
    (b"concurrently", TokenKind::Concurrently),
    (b"materialized", TokenKind::LeftName),
    (b"serializable", TokenKind::LeftName),
];

/// The words of so many letters that have a kind of their own, and the other words that are reserved
/// or left out.
fn words_of(n: usize) -> &'static [(&'static [u8], TokenKind)]
    ensures { map (λ w. (w.0.now, w.1)) result.now ≡ words.words_of n }
{
    match n {
        2 => &TWO,
        3 => &THREE,
        4 => &FOUR,
        5 => &FIVE,
        6 => &SIX,
        7 => &SEVEN,
        8 => &EIGHT,
        9 => &NINE,
        10 => &TEN,
        11 => &ELEVEN,
        12 => &TWELVE,
        _ => &[],
    }
}

fn same_word(a: &[u8], b: &[u8]) -> bool
    ensures { result ≡ str_eq_ignore_ascii_case a.now b.now }
{
    a.eq_ignore_ascii_case(b)
}

fn look_up(mut table: &[(&[u8], TokenKind)], word: &[u8]) -> TokenKind
    ensures { result ≡ words.look_up (map (λ w. (w.0.now, w.1)) table.entry.now) word.now }
{
    while let [entry, rest @ ..] = table {
        if same_word(entry.0, word) {
            return entry.1;
        }
        table = rest;
    }
    TokenKind::Name
}

/// The kind of a word in any case of letters, or of a name.
#[tactic(auto, unfolding(crate::specs::Words::word_kind))]
pub fn word_kind(word: &[u8]) -> TokenKind
    ensures value { result ≡ words.word_kind word.now }
    ensures kind { words.is result TokenKind.Fault ≡ false }
{
    look_up(words_of(word.len()), word)
}
