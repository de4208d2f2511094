ghost use Rattle.grammar.specs.Gives.{Gives};
ghost use Rattle.sql_syntax.specs.Create as grammar;
ghost use Rattle.sql_ast.specs.Commands.{command_tree};

use crate::bound::bound;
use grammar::{Part, Refused, comes, separated, split, word};
use pg_values::{PgText, Strategy};
use sql_ast::{ColumnDefinition, ColumnList, Command, NameList, Partitioning};
use sql_expressions::{names, plain_name};
use sql_tokens::{Token, TokenKind, same_kind};
use std::alloc::Global;

/// Whether a column may not be null.
fn null_or_not(tokens: &[Token]) -> Result<(bool, &[Token]), Refused>
    ensures { Gives (λ x. (x.0, x.1.now)) result (grammar.null_or_not.read tokens.now) }
{
    if comes(tokens, TokenKind::Not) {
        let (_, rest) = word(tokens, TokenKind::Not)?;
        let (_, rest) = word(rest, TokenKind::Null)?;
        return Ok((true, rest));
    }
    if comes(tokens, TokenKind::Null) {
        let (_, rest) = word(tokens, TokenKind::Null)?;
        return Ok((false, rest));
    }
    Ok((false, tokens))
}

fn column<'a>(
    alloc: Global,
    text: &[u8],
    tokens: &'a [Token],
) -> Result<(ColumnDefinition, &'a [Token]), Refused>
    ensures { Gives (λ x. (x.0, x.1.now)) result ((grammar.column text.now).read tokens.now) }
{
    let (name, rest) = plain_name(alloc, text, tokens)?;
    let (kind, rest) = plain_name(alloc, text, rest)?;
    let (not_null, rest) = null_or_not(rest)?;
    let column = ColumnDefinition {
        name,
        kind,
        not_null,
    };
    Ok((column, rest))
}

struct EachColumn;

impl Part for EachColumn {
    ghost use Rattle.sql_syntax.specs.Create as grammar;
    ghost use Rattle.sql_ast.specs.declared.table_definition.ColumnDefinition.{ColumnDefinition as OneColumn};

    type Token = Token;

    type Item = ColumnDefinition;

    ghost Tree = { OneColumn };

    ghost tree = { λ column. column };

    ghost rule = { grammar.column };

    fn read<'a>(
        alloc: Global,
        text: &[u8],
        tokens: &'a [Token],
    ) -> Result<(ColumnDefinition, &'a [Token]), Refused> {
        column(alloc, text, tokens)
    }
}

fn strategy_word(tokens: &[Token]) -> Result<(Strategy, &[Token]), Refused>
    ensures { Gives (λ x. (x.0, x.1.now)) result (grammar.strategy_rule.read tokens.now) }
{
    match split(tokens) {
        None => Err(Refused::Syntax(0)),
        Some((first, rest)) => {
            if same_kind(first.kind, TokenKind::Range) {
                Ok((Strategy::Range, rest))
            } else if same_kind(first.kind, TokenKind::List) {
                Ok((Strategy::List, rest))
            } else if same_kind(first.kind, TokenKind::Hash) {
                Ok((Strategy::Hash, rest))
            } else {
                Err(Refused::Syntax(tokens.len()))
            }
        }
    }
}

/// PARTITION BY.
fn by<'a>(
    alloc: Global,
    text: &[u8],
    tokens: &'a [Token],
) -> Result<(Partitioning, &'a [Token]), Refused>
    ensures { Gives (λ x. (x.0, x.1.now)) result ((grammar.by text.now).read tokens.now) }
{
    let (_, rest) = word(tokens, TokenKind::Partition)?;
    let (_, rest) = word(rest, TokenKind::By)?;
    let (strategy, rest) = strategy_word(rest)?;
    let (_, rest) = word(rest, TokenKind::OpenParenthesis)?;
    let (names, rest) = names(alloc, text, rest)?;
    let (_, rest) = word(rest, TokenKind::CloseParenthesis)?;
    let columns = NameList::from_vec(names);
    Ok((Partitioning { strategy, columns }, rest))
}

fn maybe_by<'a>(
    alloc: Global,
    text: &[u8],
    tokens: &'a [Token],
) -> Result<(Option<Partitioning>, &'a [Token]), Refused>
    ensures { Gives (λ x. (x.0, x.1.now)) result ((grammar.maybe_by text.now).read tokens.now) }
{
    if !comes(tokens, TokenKind::Partition) {
        return Ok((None, tokens));
    }
    let (by, rest) = by(alloc, text, tokens)?;
    Ok((Some(by), rest))
}

/// A table of its own columns.
fn own_columns<'a>(
    alloc: Global,
    text: &[u8],
    name: PgText,
    tokens: &'a [Token],
) -> Result<(Command, &'a [Token]), Refused>
    ensures { Gives (λ x. (command_tree x.0, x.1.now)) result ((grammar.columns text.now name).read tokens.now) }
{
    let (_, rest) = word(tokens, TokenKind::OpenParenthesis)?;
    let (columns, rest) = separated::<EachColumn>(alloc, text, TokenKind::Comma, rest)?;
    let (_, rest) = word(rest, TokenKind::CloseParenthesis)?;
    let (by, rest) = maybe_by(alloc, text, rest)?;
    let columns = ColumnList::from_vec(columns);
    Ok((Command::CreateTable(name, columns, by), rest))
}

/// A table that is a partition from its beginning.
fn partition_of<'a>(
    alloc: Global,
    text: &[u8],
    name: PgText,
    tokens: &'a [Token],
) -> Result<(Command, &'a [Token]), Refused>
    ensures { Gives (λ x. (command_tree x.0, x.1.now)) result ((grammar.partition_of text.now name).read tokens.now) }
{
    let (_, rest) = word(tokens, TokenKind::Partition)?;
    let (_, rest) = word(rest, TokenKind::Of)?;
    let (parent, rest) = plain_name(alloc, text, rest)?;
    let (bound, rest) = bound(alloc, text, rest)?;
    let (by, rest) = maybe_by(alloc, text, rest)?;
    Ok((Command::CreatePartition(name, parent, bound, by), rest))
}

pub(crate) fn create<'a>(
    alloc: Global,
    text: &[u8],
    tokens: &'a [Token],
) -> Result<(Command, &'a [Token]), Refused>
    ensures { Gives (λ x. (command_tree x.0, x.1.now)) result ((grammar.create text.now).read tokens.now) }
{
    let (_, rest) = word(tokens, TokenKind::Create)?;
    let (_, rest) = word(rest, TokenKind::Table)?;
    let (name, rest) = plain_name(alloc, text, rest)?;
    if comes(rest, TokenKind::OpenParenthesis) {
        own_columns(alloc, text, name, rest)
    } else {
        partition_of(alloc, text, name, rest)
    }
}
