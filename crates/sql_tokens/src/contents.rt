ghost use Rattle.std.specs.Prelude.{◌≡◌, map, IfOk};
ghost use Rattle.std.specs.Char.{to_ascii_lowercase, to_ascii_uppercase};
ghost use Rattle.sql_tokens.specs.Contents as contents;

use crate::numbers::number_of_digits;
use crate::{Token, TokenKind, same_kind};
use grammar::{inside_of, slice, undoubled};
use pg_values::{NoMemory, PgText};
use std::alloc::Global;

fn bytes_of(text: &[u8], token: Token) -> &[u8]
    ensures { result.now ≡ contents.bytes_of text.now token }
{
    slice(text, token.start, token.end)
}

fn folded(alloc: Global, name: &[u8]) -> Result<Vec<u8>, NoMemory>
    ensures { IfOk result (λ v. v.items ≡ map to_ascii_lowercase name.now) }
{
    let name: Vec<u8> = name.iter().map(|b| b.to_ascii_lowercase()).collect(alloc)?;
    Ok(name)
}

/// The name that a name token or a word says.
pub fn name_of(alloc: Global, text: &[u8], token: Token) -> Result<PgText, NoMemory>
    ensures { IfOk result (λ n. n ≡ contents.name_in text.now token) }
{
    let bytes = bytes_of(text, token);
    if same_kind(token.kind, TokenKind::QuotedName) {
        return PgText::from_vec(alloc, undoubled(alloc, b'"', inside_of(bytes))?);
    }
    PgText::from_vec(alloc, folded(alloc, bytes)?)
}

/// The number of a number or a parameter token, and 2^63 for each that is no `bigint`.
pub fn number_of(text: &[u8], token: Token) -> u64
    ensures { result ≡ contents.number_in text.now token }
{
    number_of_digits(bytes_of(text, token))
}

/// The text of a string token.
pub fn string_of(alloc: Global, text: &[u8], token: Token) -> Result<PgText, NoMemory>
    ensures { IfOk result (λ t. t ≡ contents.string_in text.now token) }
{
    PgText::from_vec(
        alloc,
        undoubled(alloc, b'\'', inside_of(bytes_of(text, token)))?,
    )
}

fn raised(alloc: Global, word: &[u8]) -> Result<Vec<u8>, NoMemory>
    ensures { IfOk result (λ v. v.items ≡ map to_ascii_uppercase word.now) }
{
    let word: Vec<u8> = word.iter().map(|b| b.to_ascii_uppercase()).collect(alloc)?;
    Ok(word)
}

/// What a token is called where it is left out by name: a word in capitals, a number as it is written.
pub fn called(alloc: Global, text: &[u8], token: Token) -> Result<PgText, NoMemory>
    ensures { IfOk result (λ t. t ≡ contents.called text.now token) }
{
    let bytes = bytes_of(text, token);
    if same_kind(token.kind, TokenKind::Decimal) {
        return PgText::from_bytes(alloc, bytes);
    }
    PgText::from_vec(alloc, raised(alloc, bytes)?)
}
