ghost use Rattle.std.specs.Prelude.{◌≡◌, IfOk, length, map};
ghost use Rattle.grammar.specs.Gives.{Gives};
ghost use Rattle.grammar.specs.Reading.{begins_in};
ghost use Rattle.grammar.specs.Repeats.{always, read_repeats, read_step};
ghost use Rattle.sql_tokens.specs.Classes.{a};
ghost use Rattle.sql_syntax.specs.Grammar as grammar;
ghost use Rattle.sql_ast.specs.Statements.{statement_tree};
ghost use Rattle.sql_syntax.specs.Views.{maybe_tree};

use crate::{MOST_STATEMENTS, command, command_comes, query};
use grammar::{Part, Refused, comes, word};
use pg_values::NoMemory;
use sql_ast::Statement;
use sql_expressions::one_of_comes;
use sql_tokens::{Token, TokenKind};
use std::alloc::Global;

fn query_comes(tokens: &[Token]) -> bool
    ensures { result ≡ begins_in grammar.begins_query tokens.now }
{
    comes(tokens, TokenKind::Select)
        || comes(tokens, TokenKind::Insert)
        || one_of_comes(tokens, TokenKind::Update, TokenKind::Delete)
        || comes(tokens, TokenKind::Prepare)
        || one_of_comes(tokens, TokenKind::Execute, TokenKind::Explain)
}

/// Whether a statement comes next.
pub(crate) fn statement_comes(tokens: &[Token]) -> bool
    ensures { result ≡ begins_in grammar.begins_statement tokens.now }
{
    query_comes(tokens) || command_comes(tokens)
}

fn statement<'a>(
    alloc: Global,
    text: &[u8],
    tokens: &'a [Token],
) -> Result<(Statement, &'a [Token]), Refused>
    ensures { Gives (λ x. (statement_tree x.0, x.1.now)) result ((grammar.statement text.now).read tokens.now) }
{
    if query_comes(tokens) {
        let (query, rest) = query(alloc, text, tokens)?;
        return Ok((Statement::Query(query), rest));
    }
    let (command, rest) = command(alloc, text, tokens)?;
    Ok((Statement::Command(command), rest))
}

/// A statement behind so many others, or nothing.
fn maybe_statement<'a>(
    alloc: Global,
    text: &[u8],
    before: usize,
    tokens: &'a [Token],
) -> Result<(Option<Statement>, &'a [Token]), Refused>
    ensures { Gives (λ x. (maybe_tree x.0, x.1.now)) result ((grammar.maybe_statement text.now before).read tokens.now) }
{
    if !statement_comes(tokens) {
        return Ok((None, tokens));
    }
    if before >= MOST_STATEMENTS {
        return Err(Refused::Limit(tokens.len()));
    }
    let (statement, rest) = statement(alloc, text, tokens)?;
    Ok((Some(statement), rest))
}

#[tactic(auto, unfolding(grammar::specs::Repeats::read_step))]
fn next_statement<'a>(
    alloc: Global,
    text: &[u8],
    mut done: Vec<Statement>,
    tokens: &'a [Token],
) -> Result<(bool, Vec<Statement>, &'a [Token]), Refused>
    ensures { Gives (λ x. ((x.0, map statement_tree x.1.items), x.2.now)) result (read_step (a TokenKind.Semicolon) always grammar.join (λ xs. (grammar.maybe_statement text.now (length xs)).read) (map statement_tree done.items) tokens.now) }
{
    if !comes(tokens, TokenKind::Semicolon) {
        return Ok((false, done, tokens));
    }
    let (_, rest) = word(tokens, TokenKind::Semicolon)?;
    let (next, rest) = maybe_statement(alloc, text, done.len(), rest)?;
    if let Some(next) = next {
        done.push(next)?;
    }
    Ok((true, done, rest))
}

/// The statements behind the first ones.
fn more_statements<'a>(
    alloc: Global,
    text: &[u8],
    first: Vec<Statement>,
    tokens: &'a [Token],
) -> Result<(Vec<Statement>, &'a [Token]), Refused>
    ensures { Gives (λ x. (map statement_tree x.0.items, x.1.now)) result (read_repeats (a TokenKind.Semicolon) always grammar.join (λ xs. (grammar.maybe_statement text.now (length xs)).read) (length tokens.now) (map statement_tree first.items) tokens.now) }
{
    let mut done = first;
    let mut rest = tokens;
    for _ in 0..tokens.len() {
        let (more, longer, after) = next_statement(alloc, text, done, rest)?;
        if !more {
            return Ok((longer, after));
        }
        done = longer;
        rest = after;
    }
    Ok((done, rest))
}

/// The list of a statement, if there is one.
fn listed(alloc: Global, first: Option<Statement>) -> Result<Vec<Statement>, NoMemory>
    ensures { IfOk result (λ v. map statement_tree v.items ≡ grammar.first_of (maybe_tree first)) }
{
    let mut list = Vec::new(alloc);
    if let Some(first) = first {
        list.push(first)?;
    }
    Ok(list)
}

fn block<'a>(
    alloc: Global,
    text: &[u8],
    tokens: &'a [Token],
) -> Result<(Vec<Statement>, &'a [Token]), Refused>
    ensures { Gives (λ x. (map statement_tree x.0.items, x.1.now)) result ((grammar.block text.now).read tokens.now) }
{
    let (first, rest) = maybe_statement(alloc, text, 0, tokens)?;
    let list = listed(alloc, first)?;
    more_statements(alloc, text, list, rest)
}

/// A block, as a whole text.
pub(crate) struct BlockPart;

impl Part for BlockPart {
    ghost use Rattle.std.specs.Prelude.{List, map};
    ghost use Rattle.sql_syntax.specs.Grammar as grammar;
    ghost use Rattle.sql_ast.specs.Statements.{StatementTree, statement_tree};

    type Token = Token;

    type Item = Vec<Statement>;

    ghost Tree = { List StatementTree };

    ghost tree = { λ statements. map statement_tree statements.items };

    ghost rule = { grammar.block };

    fn read<'a>(
        alloc: Global,
        text: &[u8],
        tokens: &'a [Token],
    ) -> Result<(Vec<Statement>, &'a [Token]), Refused> {
        block(alloc, text, tokens)
    }
}
