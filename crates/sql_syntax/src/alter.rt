ghost use Rattle.std.specs.Prelude.{◌≡◌};
ghost use Rattle.grammar.specs.Gives.{Gives};
ghost use Rattle.sql_syntax.specs.Alter as grammar;
ghost use Rattle.sql_ast.specs.Commands.{command_tree};

use crate::bound::bound;
use grammar::{Refused, comes, word};
use pg_values::PgText;
use sql_ast::{Command, Detachment};
use sql_expressions::{maybe_one_of, plain_name};
use sql_tokens::{Token, TokenKind, same_kind};
use std::alloc::Global;

fn attach<'a>(
    alloc: Global,
    text: &[u8],
    parent: PgText,
    tokens: &'a [Token],
) -> Result<(Command, &'a [Token]), Refused>
    ensures { Gives (λ x. (command_tree x.0, x.1.now)) result ((grammar.attach text.now parent).read tokens.now) }
{
    let (_, rest) = word(tokens, TokenKind::Attach)?;
    let (_, rest) = word(rest, TokenKind::Partition)?;
    let (name, rest) = plain_name(alloc, text, rest)?;
    let (bound, rest) = bound(alloc, text, rest)?;
    Ok((Command::Attach(parent, name, bound), rest))
}

fn detachment_of(how: Option<Token>) -> Detachment
    ensures { result ≡ grammar.detachment_of how }
{
    match how {
        None => Detachment::AtOnce,
        Some(token) => {
            if same_kind(token.kind, TokenKind::Concurrently) {
                Detachment::Concurrently
            } else {
                Detachment::Finalize
            }
        }
    }
}

fn detach<'a>(
    alloc: Global,
    text: &[u8],
    parent: PgText,
    tokens: &'a [Token],
) -> Result<(Command, &'a [Token]), Refused>
    ensures { Gives (λ x. (command_tree x.0, x.1.now)) result ((grammar.detach text.now parent).read tokens.now) }
{
    let (_, rest) = word(tokens, TokenKind::Detach)?;
    let (_, rest) = word(rest, TokenKind::Partition)?;
    let (name, rest) = plain_name(alloc, text, rest)?;
    let (how, rest) = maybe_one_of(rest, TokenKind::Concurrently, TokenKind::Finalize)?;
    Ok((Command::Detach(parent, name, detachment_of(how)), rest))
}

pub(crate) fn alter<'a>(
    alloc: Global,
    text: &[u8],
    tokens: &'a [Token],
) -> Result<(Command, &'a [Token]), Refused>
    ensures { Gives (λ x. (command_tree x.0, x.1.now)) result ((grammar.alter text.now).read tokens.now) }
{
    let (_, rest) = word(tokens, TokenKind::Alter)?;
    let (_, rest) = word(rest, TokenKind::Table)?;
    let (parent, rest) = plain_name(alloc, text, rest)?;
    if comes(rest, TokenKind::Attach) {
        attach(alloc, text, parent, rest)
    } else {
        detach(alloc, text, parent, rest)
    }
}
