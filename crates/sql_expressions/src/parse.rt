ghost use Rattle.std.specs.Prelude.{◌≡◌, IfOk};
ghost use Rattle.sql_expressions.specs.Grammar as grammar;
ghost use Rattle.sql_expressions.specs.Parsed as parsed;
ghost use Rattle.sql_ast.specs.Expressions.{tree};
ghost use Rattle.sql_expressions.specs.Words as words;

use crate::words::{MOST_NAME_BYTES, MOST_TEXT_BYTES};
use crate::{ParseRefused, expression};
use grammar::{Part, Refused, token_at, whole};
use pg_values::{NoMemory, Which};
use sql_ast::Expr;
use sql_tokens::{
    Token, TokenKind, called, is_left_out, is_name, name_of, read_tokens, same_kind, string_of,
};
use std::alloc::Global;

/// A refusal of a token that fits in no text, or of the end.
fn misfit(alloc: Global, text: &[u8], next: Option<Token>) -> Result<ParseRefused, NoMemory>
    ensures { IfOk result (λ e. e ≡ parsed.misfit text.now next) }
{
    let Some(token) = next else {
        return Ok(ParseRefused::Syntax { at: text.len() });
    };
    if !is_left_out(token.kind) {
        return Ok(ParseRefused::Syntax { at: token.start });
    }
    let word = called(alloc, text, token)?;
    Ok(ParseRefused::Left { word })
}

fn is_long_name(alloc: Global, text: &[u8], token: Token) -> Result<bool, NoMemory>
    ensures { IfOk result (λ b. b ≡ words.is_long_name text.now token) }
{
    if !is_name(token.kind) {
        return Ok(false);
    }
    let name = name_of(alloc, text, token)?;
    Ok(MOST_NAME_BYTES < name.as_bytes().len())
}

fn is_long_text(alloc: Global, text: &[u8], token: Token) -> Result<bool, NoMemory>
    ensures { IfOk result (λ b. b ≡ words.is_long_text text.now token) }
{
    if !same_kind(token.kind, TokenKind::Text) {
        return Ok(false);
    }
    let string = string_of(alloc, text, token)?;
    Ok(MOST_TEXT_BYTES < string.as_bytes().len())
}

/// The limit that a token passes.
fn passed(alloc: Global, text: &[u8], next: Option<Token>) -> Result<Which, NoMemory>
    ensures { IfOk result (λ w. w ≡ parsed.limit_at text.now next) }
{
    let Some(token) = next else {
        return Ok(Which::NestedExpressions);
    };
    if is_long_name(alloc, text, token)? {
        return Ok(Which::BytesOfAName);
    }
    if is_long_text(alloc, text, token)? {
        return Ok(Which::BytesOfAText);
    }
    Ok(Which::NestedExpressions)
}

/// The refusal of a text where its last tokens do not fit.
pub fn refusal(
    alloc: Global,
    text: &[u8],
    tokens: &[Token],
    refused: Refused,
) -> Result<ParseRefused, NoMemory>
    ensures { IfOk result (λ e. e ≡ parsed.refusal_of parsed.passed text.now tokens.now refused) }
{
    match refused {
        Refused::NoMemory => Ok(ParseRefused::NoMemory),
        Refused::Syntax(left) => misfit(alloc, text, token_at(tokens, left)),
        Refused::Limit(left) => {
            let which = passed(alloc, text, token_at(tokens, left))?;
            Ok(ParseRefused::TooMany { which })
        }
    }
}

/// An expression, as a part of a list or as a whole text.
pub struct ExprPart;

impl Part for ExprPart {
    ghost use Rattle.sql_expressions.specs.Grammar as grammar;
    ghost use Rattle.sql_ast.specs.Expressions.{Tree as OneTree, tree as tree_of};

    type Token = Token;

    type Item = Expr;

    ghost Tree = { OneTree };

    ghost tree = { tree_of };

    ghost rule = { grammar.expression };

    fn read<'a>(
        alloc: Global,
        text: &[u8],
        tokens: &'a [Token],
    ) -> Result<(Expr, &'a [Token]), Refused> {
        expression(alloc, text, tokens)
    }
}

/// Reads a text that is one expression.
pub fn parse_expression(alloc: Global, text: &[u8]) -> Result<Expr, ParseRefused>
    ensures { parsed.ParsesText parsed.passed grammar.expression tree text.now result }
{
    let tokens = read_tokens(alloc, text)?;
    match whole::<ExprPart>(alloc, text, &tokens) {
        Ok(read) => Ok(read),
        Err(refused) => Err(refusal(alloc, text, &tokens, refused)?),
    }
}
