ghost use Rattle.std.specs.Prelude.{◌≡◌, ℕ, List, Result};
ghost use Rattle.grammar.specs.Gives.{Gives};
ghost use Rattle.grammar.specs.Parses.{Parses};
ghost use Rattle.grammar.specs.Reading.{begins_in, read_whole};
ghost use Rattle.grammar.specs.declared.refused.Refused.{Refused as OneRefusal};
ghost use Rattle.sql_tokens.specs.declared.token.Token.{Token as OneToken};
ghost use Rattle.sql_syntax.specs.QueryGrammar as grammar;
ghost use Rattle.sql_ast.specs.Queries.{QueryTree, query_tree};

use crate::prepared::{execute, explain, prepare, row_statement};
use grammar::{Refused, comes};
use sql_ast::Query;
use sql_tokens::{Token, TokenKind};
use std::alloc::Global;

fn row_statement_comes(tokens: &[Token]) -> bool
    ensures { result ≡ begins_in grammar.begins_row_statement tokens.now }
{
    comes(tokens, TokenKind::Select)
        || comes(tokens, TokenKind::Insert)
        || comes(tokens, TokenKind::Update)
        || comes(tokens, TokenKind::Delete)
}

fn row_query<'a>(
    alloc: Global,
    text: &[u8],
    tokens: &'a [Token],
) -> Result<(Query, &'a [Token]), Refused>
    ensures { Gives (λ x. (query_tree x.0, x.1.now)) result ((grammar.row_query text.now).read tokens.now) }
{
    let (statement, rest) = row_statement(alloc, text, tokens)?;
    Ok((Query::Rows(statement), rest))
}

fn executed<'a>(
    alloc: Global,
    text: &[u8],
    tokens: &'a [Token],
) -> Result<(Query, &'a [Token]), Refused>
    ensures { Gives (λ x. (query_tree x.0, x.1.now)) result ((grammar.executed text.now).read tokens.now) }
{
    let (execution, rest) = execute(alloc, text, tokens)?;
    Ok((Query::Execute(execution.name, execution.arguments), rest))
}

/// The query with which the tokens begin, and the tokens behind it. `text` is the text whose tokens
/// they are.
pub fn query<'a>(
    alloc: Global,
    text: &[u8],
    tokens: &'a [Token],
) -> Result<(Query, &'a [Token]), Refused>
    ensures { Gives (λ x. (query_tree x.0, x.1.now)) result ((grammar.query text.now).read tokens.now) }
{
    if row_statement_comes(tokens) {
        row_query(alloc, text, tokens)
    } else if comes(tokens, TokenKind::Prepare) {
        prepare(alloc, text, tokens)
    } else if comes(tokens, TokenKind::Execute) {
        executed(alloc, text, tokens)
    } else {
        explain(alloc, text, tokens)
    }
}

/// Tokens that are read to their end are that query and no other; where they are refused, they stop there
/// to begin one, or go on there only without limits. The call does nothing.
pub fn queries_are_read()
    ensures { (text : List ℕ) (tokens : List OneToken) (read : Result QueryTree OneRefusal) → Gives (λ x. x) read (read_whole (grammar.query text) tokens) → Parses (grammar.query text) (λ x. x) tokens read }
{}

/// No text is two queries, even where the second is one without limits. The call does nothing.
pub fn no_two_queries()
    ensures { (text : List ℕ) (tokens : List OneToken) (x y : QueryTree) → (grammar.query text).texts tokens x → (grammar.query text).free tokens y → y ≡ x }
{}
