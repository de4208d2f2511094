ghost use Rattle.std.specs.Prelude.{◌≡◌, ◌-◌, false, true, drop, length, take, IfOk, MatchOption, None, Ok, Some};
ghost use Rattle.grammar.specs.Gives.{Gives};
ghost use Rattle.grammar.specs.Reading.{begins_in};
ghost use Rattle.sql_ast.specs.Expressions.{tree};
ghost use Rattle.sql_syntax.specs.Items as items;
ghost use Rattle.sql_ast.specs.Queries.{columns_of, item_tree};
ghost use Rattle.sql_syntax.specs.QueryViews.{output_tree, stop_of};

use grammar::{Part, Refused, comes, name_comes, split, word};
use pg_values::{NoMemory, PgText};
use sql_ast::{Expr, SelectItem};
use sql_expressions::{MOST_NAME_BYTES, expression, name_but, plain_name};
use sql_tokens::{Token, TokenKind, is_name, name_of, same_kind};
use std::alloc::Global;

/// An expression, and its alias.
#[derive(Debug, Drop)]
pub struct OutputColumn {
    pub value: Expr,
    pub alias: Option<PgText>,
}

/// An alias that may come.
fn maybe_alias<'a>(
    alloc: Global,
    text: &[u8],
    tokens: &'a [Token],
) -> Result<(Option<PgText>, &'a [Token]), Refused>
    ensures { Gives (λ x. (x.0, x.1.now)) result ((items.maybe_alias text.now).read tokens.now) }
{
    if comes(tokens, TokenKind::As) {
        let (_, rest) = word(tokens, TokenKind::As)?;
        let (name, rest) = plain_name(alloc, text, rest)?;
        return Ok((Some(name), rest));
    }
    if !name_comes(tokens) {
        return Ok((None, tokens));
    }
    let (name, rest) = name_but(alloc, text, TokenKind::Between, tokens)?;
    Ok((Some(name), rest))
}

/// The first tokens: all of them where there are fewer.
fn first(tokens: &[Token], n: usize) -> &[Token]
    ensures { result.now ≡ take n tokens.now }
{
    &tokens[..n.min(tokens.len())]
}

/// The tokens behind the first ones.
fn behind(tokens: &[Token], n: usize) -> &[Token]
    ensures { result.now ≡ drop n tokens.now }
{
    &tokens[n.min(tokens.len())..]
}

/// An expression that ends before a word BETWEEN, the word, and the tokens behind it.
#[derive(Drop)]
struct Ended<'a> {
    value: Expr,
    word: Token,
    rest: &'a [Token],
}

/// Whether the tokens before the place are an expression, and BETWEEN stands there.
fn ended_at<'a>(
    alloc: Global,
    text: &[u8],
    n: usize,
    tokens: &'a [Token],
) -> Result<Option<Ended<'a>>, NoMemory>
    ensures { IfOk result (λ x. MatchOption x (items.ended_at text.now n tokens.now ≡ None) (λ e. items.ended_at text.now n tokens.now ≡ Some ((tree e.value, e.word), e.rest.now))) }
{
    let Some((word, rest)) = split(behind(tokens, n)) else {
        return Ok(None);
    };
    if !same_kind(word.kind, TokenKind::Between) {
        return Ok(None);
    }
    match expression(alloc, text, first(tokens, n)) {
        Ok((value, left)) => match split(left) {
            None => Ok(Some(Ended { value, word, rest })),
            Some(_) => Ok(None),
        },
        Err(Refused::NoMemory) => Err(NoMemory),
        Err(Refused::Syntax(_)) => Ok(None),
        Err(Refused::Limit(_)) => Ok(None),
    }
}

/// Whether an operand of BETWEEN comes next.
fn operand_comes(tokens: &[Token]) -> bool
    ensures { result ≡ begins_in items.begins_operand tokens.now }
{
    match split(tokens) {
        None => false,
        Some((first, _)) => begins_operand(first),
    }
}

fn begins_operand(token: Token) -> bool
    ensures { result ≡ items.begins_operand token }
{
    same_kind(token.kind, TokenKind::Minus)
        || same_kind(token.kind, TokenKind::OpenParenthesis)
        || is_name(token.kind)
        || same_kind(token.kind, TokenKind::Number)
        || same_kind(token.kind, TokenKind::Text)
        || same_kind(token.kind, TokenKind::Null)
        || same_kind(token.kind, TokenKind::True)
        || same_kind(token.kind, TokenKind::False)
        || same_kind(token.kind, TokenKind::Parameter)
}

/// Where BETWEEN may stand, if the reader of an expression stopped behind n tokens.
fn place_of_word(n: usize, tokens: &[Token]) -> usize
    ensures { result ≡ items.place_of_word n tokens.now }
{
    if comes(behind(tokens, n), TokenKind::Between) {
        n
    } else {
        n.saturating_sub(1)
    }
}

fn left_of(stop: Refused) -> usize
    ensures { result ≡ items.left_of (stop_of stop) }
{
    match stop {
        Refused::NoMemory => 0,
        Refused::Syntax(left) => left,
        Refused::Limit(left) => left,
    }
}

/// The same refusal, with so many tokens left.
fn stop_at(stop: Refused, left: usize) -> Refused
    ensures { stop_of result ≡ items.stop_at (stop_of stop) left }
{
    match stop {
        Refused::NoMemory => Refused::Syntax(left),
        Refused::Syntax(_) => Refused::Syntax(left),
        Refused::Limit(_) => Refused::Limit(left),
    }
}

/// The reader of an expression stopped: a word BETWEEN that stands there or before it may be an alias.
fn stopped<'a>(
    alloc: Global,
    text: &[u8],
    tokens: &'a [Token],
    stop: Refused,
) -> Result<(OutputColumn, &'a [Token]), Refused>
    ensures { Gives (λ x. (output_tree x.0, x.1.now)) result (items.before_word text.now (stop_of stop) (items.ended_at text.now (items.place_of_word (length tokens.now - items.left_of (stop_of stop)) tokens.now) tokens.now)) }
{
    let read = tokens.len().saturating_sub(left_of(stop));
    let Some(ended) = ended_at(alloc, text, place_of_word(read, tokens), tokens)? else {
        return Err(stop);
    };
    if operand_comes(ended.rest) {
        return Err(stop_at(stop, ended.rest.len()));
    }
    let alias = Some(name_of(alloc, text, ended.word)?);
    let output = OutputColumn {
        value: ended.value,
        alias,
    };
    Ok((output, ended.rest))
}

fn output<'a>(
    alloc: Global,
    text: &[u8],
    tokens: &'a [Token],
) -> Result<(OutputColumn, &'a [Token]), Refused>
    ensures { Gives (λ x. (output_tree x.0, x.1.now)) result ((items.output text.now).read tokens.now) }
{
    match expression(alloc, text, tokens) {
        Ok((value, rest)) => {
            let (alias, rest) = maybe_alias(alloc, text, rest)?;
            Ok((OutputColumn { value, alias }, rest))
        }
        Err(Refused::NoMemory) => Err(Refused::NoMemory),
        Err(Refused::Syntax(left)) => stopped(alloc, text, tokens, Refused::Syntax(left)),
        Err(Refused::Limit(left)) => stopped(alloc, text, tokens, Refused::Limit(left)),
    }
}

/// A table's name and `.*`, if they come.
fn starred<'a>(
    alloc: Global,
    text: &[u8],
    tokens: &'a [Token],
) -> Result<Option<(PgText, &'a [Token])>, NoMemory>
    ensures { IfOk result (λ x. MatchOption x (items.is_starred text.now tokens.now ≡ false) (λ y. (items.is_starred text.now tokens.now ≡ true) × ((items.starred text.now).read tokens.now ≡ Ok (columns_of y.0, y.1.now)))) }
{
    let Some((name, rest)) = split(tokens) else {
        return Ok(None);
    };
    let Some((dot, rest)) = split(rest) else {
        return Ok(None);
    };
    let Some((star, rest)) = split(rest) else {
        return Ok(None);
    };
    if !is_name(name.kind)
        || !same_kind(dot.kind, TokenKind::Dot)
        || !same_kind(star.kind, TokenKind::Star)
    {
        return Ok(None);
    }
    let table = name_of(alloc, text, name)?;
    if MOST_NAME_BYTES < table.as_bytes().len() {
        return Ok(None);
    }
    Ok(Some((table, rest)))
}

fn starred_or_output<'a>(
    alloc: Global,
    text: &[u8],
    tokens: &'a [Token],
) -> Result<(SelectItem, &'a [Token]), Refused>
    ensures { Gives (λ x. (item_tree x.0, x.1.now)) result ((items.starred_or_output text.now).read tokens.now) }
{
    if let Some((table, rest)) = starred(alloc, text, tokens)? {
        return Ok((SelectItem::AllOf(table), rest));
    }
    let (output, rest) = output(alloc, text, tokens)?;
    Ok((SelectItem::Output(output.value, output.alias), rest))
}

pub(crate) fn item<'a>(
    alloc: Global,
    text: &[u8],
    tokens: &'a [Token],
) -> Result<(SelectItem, &'a [Token]), Refused>
    ensures { Gives (λ x. (item_tree x.0, x.1.now)) result ((items.item text.now).read tokens.now) }
{
    if comes(tokens, TokenKind::Star) {
        let (_, rest) = word(tokens, TokenKind::Star)?;
        return Ok((SelectItem::All, rest));
    }
    starred_or_output(alloc, text, tokens)
}

pub(crate) struct EachItem;

impl Part for EachItem {
    ghost use Rattle.sql_ast.specs.Queries.{Item as OneItem, item_tree};
    ghost use Rattle.sql_syntax.specs.Items.{item as item_rule};

    type Token = Token;

    type Item = SelectItem;

    ghost Tree = { OneItem };

    ghost tree = { item_tree };

    ghost rule = { item_rule };

    fn read<'a>(
        alloc: Global,
        text: &[u8],
        tokens: &'a [Token],
    ) -> Result<(SelectItem, &'a [Token]), Refused> {
        item(alloc, text, tokens)
    }
}
