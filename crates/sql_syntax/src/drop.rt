ghost use Rattle.grammar.specs.Gives.{Gives};
ghost use Rattle.sql_syntax.specs.Drop as grammar;
ghost use Rattle.sql_ast.specs.Commands.{command_tree};

use grammar::{Refused, comes, word};
use pg_values::PgText;
use sql_ast::{Command, NameList};
use sql_expressions::{maybe_one_of, name, names, with_more_names};
use sql_tokens::{Token, TokenKind, same_kind};
use std::alloc::Global;

/// Behind DROP TABLE and a first name, which may be the IF of IF EXISTS.
fn dropped_behind<'a>(
    alloc: Global,
    text: &[u8],
    kind: TokenKind,
    name: PgText,
    tokens: &'a [Token],
) -> Result<(bool, Vec<PgText>, &'a [Token]), Refused>
    ensures { Gives (λ x. ((x.0, x.1.items), x.2.now)) result ((grammar.dropped_behind text.now (kind, name)).read tokens.now) }
{
    if same_kind(kind, TokenKind::If) && comes(tokens, TokenKind::Exists) {
        let (_, rest) = word(tokens, TokenKind::Exists)?;
        let (names, rest) = names(alloc, text, rest)?;
        return Ok((true, names, rest));
    }
    let (names, rest) = with_more_names(alloc, text, name, tokens)?;
    Ok((false, names, rest))
}

/// The tables, and whether an absent one is passed over.
fn dropped<'a>(
    alloc: Global,
    text: &[u8],
    tokens: &'a [Token],
) -> Result<(bool, Vec<PgText>, &'a [Token]), Refused>
    ensures { Gives (λ x. ((x.0, x.1.items), x.2.now)) result ((grammar.dropped text.now).read tokens.now) }
{
    let (kind, name, rest) = name(alloc, text, tokens)?;
    dropped_behind(alloc, text, kind, name, rest)
}

pub(crate) fn drop_tables<'a>(
    alloc: Global,
    text: &[u8],
    tokens: &'a [Token],
) -> Result<(Command, &'a [Token]), Refused>
    ensures { Gives (λ x. (command_tree x.0, x.1.now)) result ((grammar.drop_tables text.now).read tokens.now) }
{
    let (_, rest) = word(tokens, TokenKind::Drop)?;
    let (_, rest) = word(rest, TokenKind::Table)?;
    let (if_there, names, rest) = dropped(alloc, text, rest)?;
    let (_, rest) = maybe_one_of(rest, TokenKind::Cascade, TokenKind::Restrict)?;
    let names = NameList::from_vec(names);
    Ok((Command::DropTables(if_there, names), rest))
}
