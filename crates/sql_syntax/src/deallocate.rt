ghost use Rattle.grammar.specs.Gives.{Gives};
ghost use Rattle.sql_syntax.specs.Deallocate as grammar;
ghost use Rattle.sql_ast.specs.Commands.{command_tree};

use grammar::{Refused, comes, word};
use pg_values::PgText;
use sql_ast::Command;
use sql_expressions::{name, other_name, other_name_comes};
use sql_tokens::{Token, TokenKind, same_kind};
use std::alloc::Global;

/// Behind DEALLOCATE and a name.
fn behind_deallocate<'a>(
    alloc: Global,
    text: &[u8],
    kind: TokenKind,
    name: PgText,
    tokens: &'a [Token],
) -> Result<(Command, &'a [Token]), Refused>
    ensures { Gives (λ x. (command_tree x.0, x.1.now)) result ((grammar.behind_deallocate text.now (kind, name)).read tokens.now) }
{
    if same_kind(kind, TokenKind::Prepare) && comes(tokens, TokenKind::All) {
        let (_, rest) = word(tokens, TokenKind::All)?;
        return Ok((Command::DeallocateAll, rest));
    }
    if same_kind(kind, TokenKind::Prepare) && other_name_comes(tokens, TokenKind::Transaction) {
        let (name, rest) = other_name(alloc, text, TokenKind::Transaction, tokens)?;
        return Ok((Command::Deallocate(name), rest));
    }
    Ok((Command::Deallocate(name), tokens))
}

pub(crate) fn deallocate<'a>(
    alloc: Global,
    text: &[u8],
    tokens: &'a [Token],
) -> Result<(Command, &'a [Token]), Refused>
    ensures { Gives (λ x. (command_tree x.0, x.1.now)) result ((grammar.deallocate text.now).read tokens.now) }
{
    let (_, rest) = word(tokens, TokenKind::Deallocate)?;
    if comes(rest, TokenKind::All) {
        let (_, rest) = word(rest, TokenKind::All)?;
        return Ok((Command::DeallocateAll, rest));
    }
    let (kind, name, rest) = name(alloc, text, rest)?;
    behind_deallocate(alloc, text, kind, name, rest)
}
