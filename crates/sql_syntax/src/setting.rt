ghost use Rattle.std.specs.Prelude.{◌≡◌};
ghost use Rattle.grammar.specs.Gives.{Gives};
ghost use Rattle.sql_syntax.specs.Setting as grammar;
ghost use Rattle.sql_ast.specs.Commands.{command_tree};
ghost use Rattle.sql_tokens.specs.Contents as contents;

use grammar::{Refused, comes, split, word};
use pg_values::PgText;
use sql_ast::{Command, SettingValue};
use sql_expressions::{MOST_NAME_BYTES, one_of, other_name, plain_name, string};
use sql_tokens::{Token, TokenKind, is_name, name_of, same_kind};
use std::alloc::Global;

fn is_setting_word(token: Token) -> bool
    ensures { result ≡ grammar.is_setting_word token }
{
    is_name(token.kind)
        || same_kind(token.kind, TokenKind::On)
        || same_kind(token.kind, TokenKind::True)
        || same_kind(token.kind, TokenKind::False)
}

/// The bytes of a token.
fn bytes_of(text: &[u8], token: Token) -> &[u8]
    ensures { result.now ≡ contents.bytes_of text.now token }
{
    let behind = &text[token.start.min(text.len())..];
    &behind[..token.end.saturating_sub(token.start).min(behind.len())]
}

/// The digits of a number without the zeros before them: a zero is left of zeros alone.
fn without_zeros(digits: &[u8]) -> &[u8]
    ensures { result.now ≡ grammar.without_zeros digits.now }
{
    let mut rest = digits;
    while 1 < rest.len() && rest[0] == b'0' {
        rest = &rest[1..];
    }
    rest
}

fn setting_number<'a>(
    alloc: Global,
    text: &[u8],
    tokens: &'a [Token],
) -> Result<(SettingValue, &'a [Token]), Refused>
    ensures { Gives (λ x. (x.0, x.1.now)) result ((grammar.setting_number text.now).read tokens.now) }
{
    let (first, rest) = word(tokens, TokenKind::Number)?;
    let digits = PgText::from_bytes(alloc, without_zeros(bytes_of(text, first)))?;
    Ok((SettingValue::Number(digits), rest))
}

/// What a setting is set to.
fn setting_value<'a>(
    alloc: Global,
    text: &[u8],
    tokens: &'a [Token],
) -> Result<(SettingValue, &'a [Token]), Refused>
    ensures { Gives (λ x. (x.0, x.1.now)) result ((grammar.setting_value text.now).read tokens.now) }
{
    let Some((first, rest)) = split(tokens) else {
        return Err(Refused::Syntax(0));
    };
    if is_setting_word(first) {
        let word = name_of(alloc, text, first)?;
        if is_name(first.kind) && MOST_NAME_BYTES < word.as_bytes().len() {
            return Err(Refused::Limit(tokens.len()));
        }
        return Ok((SettingValue::Word(word), rest));
    }
    if same_kind(first.kind, TokenKind::Text) {
        let (string, rest) = string(alloc, text, tokens)?;
        return Ok((SettingValue::Text(string), rest));
    }
    setting_number(alloc, text, tokens)
}

pub(crate) fn set<'a>(
    alloc: Global,
    text: &[u8],
    tokens: &'a [Token],
) -> Result<(Command, &'a [Token]), Refused>
    ensures { Gives (λ x. (command_tree x.0, x.1.now)) result ((grammar.set text.now).read tokens.now) }
{
    if comes(tokens, TokenKind::Set) {
        let (_, rest) = word(tokens, TokenKind::Set)?;
        let (name, rest) = other_name(alloc, text, TokenKind::Local, rest)?;
        let (_, rest) = one_of(rest, TokenKind::Equal, TokenKind::To)?;
        let (value, rest) = setting_value(alloc, text, rest)?;
        return Ok((Command::Set(name, value), rest));
    }
    let (_, rest) = word(tokens, TokenKind::Reset)?;
    let (name, rest) = plain_name(alloc, text, rest)?;
    Ok((Command::Reset(name), rest))
}
