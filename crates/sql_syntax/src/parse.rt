ghost use Rattle.std.specs.Prelude.{◌≡◌, ◌⊎◌, ◌≤◌, ℕ, IfOk, List, length, map};
ghost use Rattle.sql_expressions.specs.Parsed as parsed;
ghost use Rattle.sql_expressions.specs.declared.refused.ParseRefused.{ParseRefused as OneRefusal};
ghost use Rattle.sql_expressions.specs.declared.refused.ParseRefused.TheVariants as refusals;
ghost use Rattle.sql_syntax.specs.Block as block;
ghost use Rattle.sql_syntax.specs.Grammar as grammar;
ghost use Rattle.sql_ast.specs.Statements.{StatementTree, statement_tree};

use crate::statements::{BlockPart, statement_comes};
use grammar::{Refused, comes, whole};
use pg_values::{NoMemory, Which};
use sql_ast::Statement;
use sql_expressions::{ParseRefused, refusal};
use sql_tokens::{Token, TokenKind, read_tokens};
use std::alloc::Global;

/// A block has at most so many statements.
pub const MOST_STATEMENTS: usize = 1024;

/// Whether a statement begins at a token: with its first word, at the front of the block or directly
/// behind a semicolon.
fn statement_begins(tokens: &[Token], at: usize) -> bool
    requires { at ≤ length tokens.now }
    ensures { result ≡ block.statement_begins tokens.now at }
{
    statement_comes(&tokens[at..]) && (at == 0 || comes(&tokens[at - 1..], TokenKind::Semicolon))
}

/// The refusal of a block where its last tokens do not fit.
fn refusal_of_block(
    alloc: Global,
    text: &[u8],
    tokens: &[Token],
    refused: Refused,
) -> Result<ParseRefused, NoMemory>
    ensures { IfOk result (λ e. e ≡ parsed.refusal_of block.passed text.now tokens.now refused) }
{
    if let Refused::Limit(left) = refused {
        if statement_begins(tokens, tokens.len().saturating_sub(left)) {
            let which = Which::Statements;
            return Ok(ParseRefused::TooMany { which });
        }
    }
    refusal(alloc, text, tokens, refused)
}

/// Reads a block. An empty statement is none, and a text of nothing but blanks, comments and semicolons
/// is a block of no statements.
pub fn parse_block(alloc: Global, text: &[u8]) -> Result<Vec<Statement>, ParseRefused>
    ensures { parsed.ParsesText block.passed grammar.block (λ v. map statement_tree v.items) text.now result }
{
    let tokens = read_tokens(alloc, text)?;
    match whole::<BlockPart>(alloc, text, &tokens) {
        Ok(statements) => Ok(statements),
        Err(refused) => Err(refusal_of_block(alloc, text, &tokens, refused)?),
    }
}

/// No text is a block of two lists of statements, even where the second is one without limits. The call
/// does nothing.
pub fn no_two_blocks()
    ensures { (text : List ℕ) (xs ys : List StatementTree) → block.IsBlock text xs → block.IsFreeBlock text ys → ys ≡ xs }
{}

/// Where a block is refused at a token, there is a block that begins with what stands before the token,
/// and none within the limits that begins with that and the token. The call does nothing.
pub fn refused_blocks_stop_there()
    ensures { (text : List ℕ) (refused : OneRefusal) → parsed.IsRefused block.passed grammar.block text refused → (refused ≡ refusals.NoMemory) ⊎ block.Stops text }
{}
