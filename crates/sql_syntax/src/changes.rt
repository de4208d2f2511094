ghost use Rattle.std.specs.Prelude.{◌≡◌, ◌∷◌, [], map};
ghost use Rattle.grammar.specs.Gives.{Gives};
ghost use Rattle.sql_ast.specs.Expressions.{tree, trees};
ghost use Rattle.sql_expressions.specs.Lists as lists;
ghost use Rattle.sql_syntax.specs.QueryGrammar as grammar;
ghost use Rattle.sql_ast.specs.Queries.{row_tree, setting};
ghost use Rattle.sql_syntax.specs.QueryViews.{column_in_steps, value_and_more};

use crate::from::{condition, named_table};
use grammar::{Part, Refused, comes, more_parts, separated, word};
use pg_values::{ListOf, PgText};
use sql_ast::{
    Assignment, Delete, Expr, ExprList, Insert, NameList, NamedTable, RowStatement, Update,
};
use sql_expressions::{ExprPart, expression, name_but, names, other_name, plain_name};
use sql_tokens::{Token, TokenKind, name_of};
use std::alloc::Global;

/// The columns of an INSERT, where they are named.
fn columns<'a>(
    alloc: Global,
    text: &[u8],
    tokens: &'a [Token],
) -> Result<(Option<NameList>, &'a [Token]), Refused>
    ensures { Gives (λ x. (x.0, x.1.now)) result ((grammar.columns text.now).read tokens.now) }
{
    if !comes(tokens, TokenKind::OpenParenthesis) {
        return Ok((None, tokens));
    }
    let (_, rest) = word(tokens, TokenKind::OpenParenthesis)?;
    let (names, rest) = names(alloc, text, rest)?;
    let (_, rest) = word(rest, TokenKind::CloseParenthesis)?;
    Ok((Some(NameList::from_vec(names)), rest))
}

fn row<'a>(
    alloc: Global,
    text: &[u8],
    tokens: &'a [Token],
) -> Result<(ExprList, &'a [Token]), Refused>
    ensures { Gives (λ x. (trees x.0, x.1.now)) result ((grammar.row text.now).read tokens.now) }
{
    let (_, rest) = word(tokens, TokenKind::OpenParenthesis)?;
    let (values, rest) = separated::<ExprPart>(alloc, text, TokenKind::Comma, rest)?;
    let (_, rest) = word(rest, TokenKind::CloseParenthesis)?;
    Ok((ExprList::from_vec(values), rest))
}

struct EachRow;

impl Part for EachRow {
    ghost use Rattle.sql_ast.specs.Expressions.{Trees, trees};
    ghost use Rattle.sql_syntax.specs.QueryGrammar as grammar;

    type Token = Token;

    type Item = ExprList;

    ghost Tree = { Trees };

    ghost tree = { trees };

    ghost rule = { grammar.row };

    fn read<'a>(
        alloc: Global,
        text: &[u8],
        tokens: &'a [Token],
    ) -> Result<(ExprList, &'a [Token]), Refused> {
        row(alloc, text, tokens)
    }
}

pub(crate) fn insert<'a>(
    alloc: Global,
    text: &[u8],
    tokens: &'a [Token],
) -> Result<(RowStatement, &'a [Token]), Refused>
    ensures { Gives (λ x. (row_tree x.0, x.1.now)) result ((grammar.insert text.now).read tokens.now) }
{
    let (_, rest) = word(tokens, TokenKind::Insert)?;
    let (_, rest) = word(rest, TokenKind::Into)?;
    let (table, rest) = plain_name(alloc, text, rest)?;
    let (columns, rest) = columns(alloc, text, rest)?;
    let (_, rest) = word(rest, TokenKind::Values)?;
    let (rows, rest) = separated::<EachRow>(alloc, text, TokenKind::Comma, rest)?;
    let insert = Insert {
        table,
        columns,
        rows: ListOf::from_vec(rows),
    };
    Ok((RowStatement::Insert(insert), rest))
}

fn assignment<'a>(
    alloc: Global,
    text: &[u8],
    tokens: &'a [Token],
) -> Result<(Assignment, &'a [Token]), Refused>
    ensures { Gives (λ x. (setting x.0, x.1.now)) result ((grammar.assignment text.now).read tokens.now) }
{
    let (column, rest) = name_but(alloc, text, TokenKind::Set, tokens)?;
    let (_, rest) = word(rest, TokenKind::Equal)?;
    let (value, rest) = expression(alloc, text, rest)?;
    Ok((Assignment { column, value }, rest))
}

struct EachAssignment;

impl Part for EachAssignment {
    ghost use Rattle.sql_syntax.specs.QueryGrammar as grammar;
    ghost use Rattle.sql_ast.specs.Queries.{Setting, setting};

    type Token = Token;

    type Item = Assignment;

    ghost Tree = { Setting };

    ghost tree = { setting };

    ghost rule = { grammar.assignment };

    fn read<'a>(
        alloc: Global,
        text: &[u8],
        tokens: &'a [Token],
    ) -> Result<(Assignment, &'a [Token]), Refused> {
        assignment(alloc, text, tokens)
    }
}

/// The alias of the table of an UPDATE, and the new values.
#[derive(Debug, Drop)]
struct Settings {
    alias: Option<PgText>,
    assignments: Vec<Assignment>,
}

/// SET and the new values, behind an alias.
fn behind_alias<'a>(
    alloc: Global,
    text: &[u8],
    alias: PgText,
    tokens: &'a [Token],
) -> Result<(Settings, &'a [Token]), Refused>
    ensures { Gives (λ x. ((x.0.alias, map setting x.0.assignments.items), x.1.now)) result ((grammar.behind_alias text.now alias).read tokens.now) }
{
    let (_, rest) = word(tokens, TokenKind::Set)?;
    let (assignments, rest) = separated::<EachAssignment>(alloc, text, TokenKind::Comma, rest)?;
    let alias = Some(alias);
    Ok((Settings { alias, assignments }, rest))
}

/// A new value that stands there, and those behind it.
fn with_more<'a>(
    alloc: Global,
    text: &[u8],
    one: Assignment,
    tokens: &'a [Token],
) -> Result<(Vec<Assignment>, &'a [Token]), Refused>
    ensures { Gives (λ x. (map setting x.0.items, x.1.now)) result ((lists.more_commas (grammar.assignment text.now) (setting one ∷ [])).read tokens.now) }
{
    let mut first = Vec::new(alloc);
    first.push(one)?;
    more_parts::<EachAssignment>(alloc, text, TokenKind::Comma, first, tokens)
}

/// The new values behind the first, which is of the column that a token names.
fn more_settings<'a>(
    alloc: Global,
    text: &[u8],
    column: Token,
    value: Expr,
    tokens: &'a [Token],
) -> Result<(Vec<Assignment>, &'a [Token]), Refused>
    ensures { Gives (λ x. (map setting x.0.items, x.1.now)) result ((grammar.more_settings text.now column (tree value)).read tokens.now) }
{
    let column = name_of(alloc, text, column)?;
    with_more(alloc, text, Assignment { column, value }, tokens)
}

/// The value of a column, and the new values behind it.
fn value_and_more<'a>(
    alloc: Global,
    text: &[u8],
    column: Token,
    tokens: &'a [Token],
) -> Result<(Vec<Assignment>, &'a [Token]), Refused>
    ensures { Gives (λ x. (map setting x.0.items, x.1.now)) result ((value_and_more text.now column).read tokens.now) }
{
    let (value, rest) = expression(alloc, text, tokens)?;
    more_settings(alloc, text, column, value, rest)
}

fn column_in_steps<'a>(
    alloc: Global,
    text: &[u8],
    column: Token,
    tokens: &'a [Token],
) -> Result<(Settings, &'a [Token]), Refused>
    ensures { Gives (λ x. ((x.0.alias, map setting x.0.assignments.items), x.1.now)) result ((column_in_steps text.now column).read tokens.now) }
{
    let (_, rest) = word(tokens, TokenKind::Equal)?;
    let (assignments, rest) = value_and_more(alloc, text, column, rest)?;
    let alias = None;
    Ok((Settings { alias, assignments }, rest))
}

/// Behind SET SET and "=": the first column is called `set`.
fn column_set<'a>(
    alloc: Global,
    text: &[u8],
    column: Token,
    tokens: &'a [Token],
) -> Result<(Settings, &'a [Token]), Refused>
    ensures { Gives (λ x. ((x.0.alias, map setting x.0.assignments.items), x.1.now)) result ((grammar.column_set text.now column).read tokens.now) }
{
    column_in_steps(alloc, text, column, tokens)
}

/// Behind two words SET.
fn behind_two<'a>(
    alloc: Global,
    text: &[u8],
    one: Token,
    two: Token,
    tokens: &'a [Token],
) -> Result<(Settings, &'a [Token]), Refused>
    ensures { Gives (λ x. ((x.0.alias, map setting x.0.assignments.items), x.1.now)) result ((grammar.behind_two text.now one two).read tokens.now) }
{
    if comes(tokens, TokenKind::Equal) {
        return column_set(alloc, text, two, tokens);
    }
    let (assignments, rest) = separated::<EachAssignment>(alloc, text, TokenKind::Comma, tokens)?;
    let alias = Some(name_of(alloc, text, one)?);
    Ok((Settings { alias, assignments }, rest))
}

/// New values of which the first column is not called `set`.
fn other_first<'a>(
    alloc: Global,
    text: &[u8],
    tokens: &'a [Token],
) -> Result<(Settings, &'a [Token]), Refused>
    ensures { Gives (λ x. ((x.0.alias, map setting x.0.assignments.items), x.1.now)) result ((grammar.other_first text.now).read tokens.now) }
{
    let (column, rest) = other_name(alloc, text, TokenKind::Set, tokens)?;
    let (_, rest) = word(rest, TokenKind::Equal)?;
    let (value, rest) = expression(alloc, text, rest)?;
    let (assignments, rest) = with_more(alloc, text, Assignment { column, value }, rest)?;
    let alias = None;
    Ok((Settings { alias, assignments }, rest))
}

/// Behind one word SET.
fn behind_set<'a>(
    alloc: Global,
    text: &[u8],
    one: Token,
    tokens: &'a [Token],
) -> Result<(Settings, &'a [Token]), Refused>
    ensures { Gives (λ x. ((x.0.alias, map setting x.0.assignments.items), x.1.now)) result ((grammar.behind_set text.now one).read tokens.now) }
{
    if comes(tokens, TokenKind::Set) {
        let (two, rest) = word(tokens, TokenKind::Set)?;
        return behind_two(alloc, text, one, two, rest);
    }
    other_first(alloc, text, tokens)
}

/// Behind UPDATE and the table's name.
fn behind_table<'a>(
    alloc: Global,
    text: &[u8],
    tokens: &'a [Token],
) -> Result<(Settings, &'a [Token]), Refused>
    ensures { Gives (λ x. ((x.0.alias, map setting x.0.assignments.items), x.1.now)) result ((grammar.behind_table text.now).read tokens.now) }
{
    if comes(tokens, TokenKind::As) {
        let (_, rest) = word(tokens, TokenKind::As)?;
        let (alias, rest) = plain_name(alloc, text, rest)?;
        return behind_alias(alloc, text, alias, rest);
    }
    if comes(tokens, TokenKind::Set) {
        let (one, rest) = word(tokens, TokenKind::Set)?;
        return behind_set(alloc, text, one, rest);
    }
    let (alias, rest) = other_name(alloc, text, TokenKind::Set, tokens)?;
    behind_alias(alloc, text, alias, rest)
}

pub(crate) fn update<'a>(
    alloc: Global,
    text: &[u8],
    tokens: &'a [Token],
) -> Result<(RowStatement, &'a [Token]), Refused>
    ensures { Gives (λ x. (row_tree x.0, x.1.now)) result ((grammar.update text.now).read tokens.now) }
{
    let (_, rest) = word(tokens, TokenKind::Update)?;
    let (name, rest) = plain_name(alloc, text, rest)?;
    let (settings, rest) = behind_table(alloc, text, rest)?;
    let (condition, rest) = condition(alloc, text, rest)?;
    let table = NamedTable {
        name,
        alias: settings.alias,
    };
    let update = Update {
        table,
        assignments: ListOf::from_vec(settings.assignments),
        condition,
    };
    Ok((RowStatement::Update(update), rest))
}

pub(crate) fn delete<'a>(
    alloc: Global,
    text: &[u8],
    tokens: &'a [Token],
) -> Result<(RowStatement, &'a [Token]), Refused>
    ensures { Gives (λ x. (row_tree x.0, x.1.now)) result ((grammar.delete text.now).read tokens.now) }
{
    let (_, rest) = word(tokens, TokenKind::Delete)?;
    let (_, rest) = word(rest, TokenKind::From)?;
    let (table, rest) = named_table(alloc, text, rest)?;
    let (condition, rest) = condition(alloc, text, rest)?;
    Ok((RowStatement::Delete(Delete { table, condition }), rest))
}
