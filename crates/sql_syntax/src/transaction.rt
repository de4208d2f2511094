ghost use Rattle.std.specs.Prelude.{◌≡◌};
ghost use Rattle.grammar.specs.Gives.{Gives};
ghost use Rattle.grammar.specs.Reading.{begins_in, read_one};
ghost use Rattle.sql_syntax.specs.Transaction as grammar;
ghost use Rattle.sql_ast.specs.Commands.{command_tree};

use grammar::{Refused, comes, split, word};
use pg_values::Isolation;
use sql_ast::Command;
use sql_expressions::{maybe_one_of, one_of_comes};
use sql_tokens::{Token, TokenKind, same_kind};

/// What stands behind READ.
fn committed_or_not(tokens: &[Token]) -> Result<(Isolation, &[Token]), Refused>
    ensures { Gives (λ x. (x.0, x.1.now)) result (grammar.committed_or_not.read tokens.now) }
{
    if comes(tokens, TokenKind::Committed) {
        let (_, rest) = word(tokens, TokenKind::Committed)?;
        return Ok((Isolation::ReadCommitted, rest));
    }
    let (_, rest) = word(tokens, TokenKind::Uncommitted)?;
    Ok((Isolation::ReadUncommitted, rest))
}

fn level(tokens: &[Token]) -> Result<(Isolation, &[Token]), Refused>
    ensures { Gives (λ x. (x.0, x.1.now)) result (grammar.level.read tokens.now) }
{
    if comes(tokens, TokenKind::Read) {
        let (_, rest) = word(tokens, TokenKind::Read)?;
        return committed_or_not(rest);
    }
    let (_, rest) = word(tokens, TokenKind::Repeatable)?;
    let (_, rest) = word(rest, TokenKind::Read)?;
    Ok((Isolation::RepeatableRead, rest))
}

fn isolation_level(tokens: &[Token]) -> Result<(Option<Isolation>, &[Token]), Refused>
    ensures { Gives (λ x. (x.0, x.1.now)) result (grammar.isolation_level.read tokens.now) }
{
    if !comes(tokens, TokenKind::Isolation) {
        return Ok((None, tokens));
    }
    let (_, rest) = word(tokens, TokenKind::Isolation)?;
    let (_, rest) = word(rest, TokenKind::Level)?;
    let (level, rest) = level(rest)?;
    Ok((Some(level), rest))
}

/// The words that begin a transaction.
fn begin_words(tokens: &[Token]) -> Result<(Option<Token>, &[Token]), Refused>
    ensures { Gives (λ x. (x.0, x.1.now)) result (grammar.begin_words.read tokens.now) }
{
    if comes(tokens, TokenKind::Begin) {
        let (_, rest) = word(tokens, TokenKind::Begin)?;
        return maybe_one_of(rest, TokenKind::Work, TokenKind::Transaction);
    }
    let (_, rest) = word(tokens, TokenKind::Start)?;
    let (_, rest) = word(rest, TokenKind::Transaction)?;
    Ok((None, rest))
}

pub(crate) fn begin(tokens: &[Token]) -> Result<(Command, &[Token]), Refused>
    ensures { Gives (λ x. (command_tree x.0, x.1.now)) result (grammar.begin.read tokens.now) }
{
    let (_, rest) = begin_words(tokens)?;
    let (isolation, rest) = isolation_level(rest)?;
    Ok((Command::Begin(isolation), rest))
}

/// Whether a word that ends a transaction comes next.
pub(crate) fn finish_comes(tokens: &[Token]) -> bool
    ensures { result ≡ begins_in grammar.is_finish tokens.now }
{
    one_of_comes(tokens, TokenKind::Commit, TokenKind::End)
        || one_of_comes(tokens, TokenKind::Rollback, TokenKind::Abort)
}

/// A word that ends a transaction.
fn finish_word(tokens: &[Token]) -> Result<(Token, &[Token]), Refused>
    ensures { Gives (λ x. (x.0, x.1.now)) result (read_one grammar.is_finish tokens.now) }
{
    match split(tokens) {
        None => Err(Refused::Syntax(0)),
        Some((first, rest)) => {
            if same_kind(first.kind, TokenKind::Commit)
                || same_kind(first.kind, TokenKind::End)
                || same_kind(first.kind, TokenKind::Rollback)
                || same_kind(first.kind, TokenKind::Abort)
            {
                Ok((first, rest))
            } else {
                Err(Refused::Syntax(tokens.len()))
            }
        }
    }
}

pub(crate) fn finish(tokens: &[Token]) -> Result<(Command, &[Token]), Refused>
    ensures { Gives (λ x. (command_tree x.0, x.1.now)) result (grammar.finish.read tokens.now) }
{
    let (first, rest) = finish_word(tokens)?;
    let (_, rest) = maybe_one_of(rest, TokenKind::Work, TokenKind::Transaction)?;
    if same_kind(first.kind, TokenKind::Commit) || same_kind(first.kind, TokenKind::End) {
        Ok((Command::Commit, rest))
    } else {
        Ok((Command::Rollback, rest))
    }
}
