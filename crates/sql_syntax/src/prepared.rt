ghost use Rattle.std.specs.Prelude.{◌≡◌, map};
ghost use Rattle.grammar.specs.Gives.{Gives};
ghost use Rattle.grammar.specs.Reading.{read_one};
ghost use Rattle.sql_ast.specs.Expressions.{trees};
ghost use Rattle.sql_syntax.specs.QueryGrammar as grammar;
ghost use Rattle.sql_ast.specs.Queries.{query_tree, row_tree};

use crate::changes::{delete, insert, update};
use crate::selects::select;
use grammar::{Part, Refused, comes, separated, split, word};
use pg_values::PgText;
use sql_ast::{ExprList, NameList, Query, RowStatement};
use sql_expressions::{ExprPart, names, other_name, plain_name};
use sql_tokens::{Token, TokenKind, same_kind};
use std::alloc::Global;
use std::rc::Rc;

/// SELECT, INSERT, UPDATE or DELETE.
pub(crate) fn row_statement<'a>(
    alloc: Global,
    text: &[u8],
    tokens: &'a [Token],
) -> Result<(RowStatement, &'a [Token]), Refused>
    ensures { Gives (λ x. (row_tree x.0, x.1.now)) result ((grammar.row_statement text.now).read tokens.now) }
{
    if comes(tokens, TokenKind::Select) {
        let (select, rest) = select(alloc, text, tokens)?;
        return Ok((RowStatement::Select(select), rest));
    }
    if comes(tokens, TokenKind::Insert) {
        insert(alloc, text, tokens)
    } else if comes(tokens, TokenKind::Update) {
        update(alloc, text, tokens)
    } else {
        delete(alloc, text, tokens)
    }
}

/// The declared kinds of the parameters.
fn kinds<'a>(
    alloc: Global,
    text: &[u8],
    tokens: &'a [Token],
) -> Result<(NameList, &'a [Token]), Refused>
    ensures { Gives (λ x. (x.0, x.1.now)) result ((grammar.kinds text.now).read tokens.now) }
{
    if !comes(tokens, TokenKind::OpenParenthesis) {
        return Ok((NameList::from_vec(Vec::new(alloc)), tokens));
    }
    let (_, rest) = word(tokens, TokenKind::OpenParenthesis)?;
    let (names, rest) = names(alloc, text, rest)?;
    let (_, rest) = word(rest, TokenKind::CloseParenthesis)?;
    Ok((NameList::from_vec(names), rest))
}

pub(crate) fn prepare<'a>(
    alloc: Global,
    text: &[u8],
    tokens: &'a [Token],
) -> Result<(Query, &'a [Token]), Refused>
    ensures { Gives (λ x. (query_tree x.0, x.1.now)) result ((grammar.prepare text.now).read tokens.now) }
{
    let (_, rest) = word(tokens, TokenKind::Prepare)?;
    let (name, rest) = other_name(alloc, text, TokenKind::Transaction, rest)?;
    let (kinds, rest) = kinds(alloc, text, rest)?;
    let (_, rest) = word(rest, TokenKind::As)?;
    let (statement, rest) = row_statement(alloc, text, rest)?;
    let statement = Rc::new(alloc, statement)?;
    Ok((Query::Prepare(name, kinds, statement), rest))
}

fn arguments<'a>(
    alloc: Global,
    text: &[u8],
    tokens: &'a [Token],
) -> Result<(ExprList, &'a [Token]), Refused>
    ensures { Gives (λ x. (trees x.0, x.1.now)) result ((grammar.arguments text.now).read tokens.now) }
{
    if !comes(tokens, TokenKind::OpenParenthesis) {
        return Ok((ExprList::from_vec(Vec::new(alloc)), tokens));
    }
    let (_, rest) = word(tokens, TokenKind::OpenParenthesis)?;
    let (values, rest) = separated::<ExprPart>(alloc, text, TokenKind::Comma, rest)?;
    let (_, rest) = word(rest, TokenKind::CloseParenthesis)?;
    Ok((ExprList::from_vec(values), rest))
}

/// EXECUTE with the name and the arguments.
#[derive(Drop)]
pub(crate) struct Execution {
    pub name: PgText,
    pub arguments: ExprList,
}

pub(crate) fn execute<'a>(
    alloc: Global,
    text: &[u8],
    tokens: &'a [Token],
) -> Result<(Execution, &'a [Token]), Refused>
    ensures { Gives (λ x. ((x.0.name, trees x.0.arguments), x.1.now)) result ((grammar.execute text.now).read tokens.now) }
{
    let (_, rest) = word(tokens, TokenKind::Execute)?;
    let (name, rest) = plain_name(alloc, text, rest)?;
    let (arguments, rest) = arguments(alloc, text, rest)?;
    Ok((Execution { name, arguments }, rest))
}

fn is_plain_option(token: Token) -> bool
    ensures { result ≡ grammar.is_plain_option token }
{
    same_kind(token.kind, TokenKind::Costs)
        || same_kind(token.kind, TokenKind::Timing)
        || same_kind(token.kind, TokenKind::Summary)
}

/// COSTS, TIMING or SUMMARY.
fn plain_option(tokens: &[Token]) -> Result<(Token, &[Token]), Refused>
    ensures { Gives (λ x. (x.0, x.1.now)) result (read_one grammar.is_plain_option tokens.now) }
{
    match split(tokens) {
        None => Err(Refused::Syntax(0)),
        Some((first, rest)) => {
            if is_plain_option(first) {
                Ok((first, rest))
            } else {
                Err(Refused::Syntax(tokens.len()))
            }
        }
    }
}

/// Whether an option is ANALYZE.
fn option(tokens: &[Token]) -> Result<(bool, &[Token]), Refused>
    ensures { Gives (λ x. (x.0, x.1.now)) result ((grammar.option).read tokens.now) }
{
    if comes(tokens, TokenKind::Analyze) {
        let (_, rest) = word(tokens, TokenKind::Analyze)?;
        return Ok((true, rest));
    }
    let (_, rest) = plain_option(tokens)?;
    let (_, rest) = word(rest, TokenKind::Off)?;
    Ok((false, rest))
}

struct EachOption;

impl Part for EachOption {
    ghost use Rattle.std.specs.Prelude.{Bool};
    ghost use Rattle.sql_syntax.specs.QueryGrammar as grammar;

    type Token = Token;

    type Item = bool;

    ghost Tree = { Bool };

    ghost tree = { λ b. b };

    ghost rule = { λ _. grammar.option };

    fn read<'a>(
        _alloc: Global,
        _text: &[u8],
        tokens: &'a [Token],
    ) -> Result<(bool, &'a [Token]), Refused> {
        option(tokens)
    }
}

fn has_true(options: &[bool]) -> bool
    ensures { result ≡ grammar.has_true options.now }
{
    options.contains(&true)
}

/// Whether ANALYZE stands behind EXPLAIN.
fn options<'a>(
    alloc: Global,
    text: &[u8],
    tokens: &'a [Token],
) -> Result<(bool, &'a [Token]), Refused>
    ensures { Gives (λ x. (x.0, x.1.now)) result (grammar.options.read tokens.now) }
{
    if comes(tokens, TokenKind::Analyze) {
        let (_, rest) = word(tokens, TokenKind::Analyze)?;
        return Ok((true, rest));
    }
    if comes(tokens, TokenKind::OpenParenthesis) {
        let (_, rest) = word(tokens, TokenKind::OpenParenthesis)?;
        let (options, rest) = separated::<EachOption>(alloc, text, TokenKind::Comma, rest)?;
        let (_, rest) = word(rest, TokenKind::CloseParenthesis)?;
        return Ok((has_true(&options), rest));
    }
    Ok((false, tokens))
}

/// What is explained.
fn explained<'a>(
    alloc: Global,
    text: &[u8],
    analyze: bool,
    tokens: &'a [Token],
) -> Result<(Query, &'a [Token]), Refused>
    ensures { Gives (λ x. (query_tree x.0, x.1.now)) result ((grammar.explained text.now analyze).read tokens.now) }
{
    if comes(tokens, TokenKind::Select) {
        let (select, rest) = select(alloc, text, tokens)?;
        return Ok((Query::ExplainSelect(analyze, select), rest));
    }
    let (execution, rest) = execute(alloc, text, tokens)?;
    let query = Query::ExplainExecute(analyze, execution.name, execution.arguments);
    Ok((query, rest))
}

pub(crate) fn explain<'a>(
    alloc: Global,
    text: &[u8],
    tokens: &'a [Token],
) -> Result<(Query, &'a [Token]), Refused>
    ensures { Gives (λ x. (query_tree x.0, x.1.now)) result ((grammar.explain text.now).read tokens.now) }
{
    let (_, rest) = word(tokens, TokenKind::Explain)?;
    let (analyze, rest) = options(alloc, text, rest)?;
    explained(alloc, text, analyze, rest)
}
