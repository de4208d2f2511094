ghost use Rattle.std.specs.Prelude.{◌≡◌, ℕ, List, Result};
ghost use Rattle.grammar.specs.Gives.{Gives};
ghost use Rattle.grammar.specs.Parses.{Parses};
ghost use Rattle.grammar.specs.Reading.{begins_in, read_whole};
ghost use Rattle.grammar.specs.declared.refused.Refused.{Refused as OneRefusal};
ghost use Rattle.sql_syntax.specs.CommandGrammar as grammar;
ghost use Rattle.sql_ast.specs.Commands.{CommandTree, command_tree};
ghost use Rattle.sql_tokens.specs.declared.token.Token.{Token as OneToken};

use crate::alter::alter;
use crate::create::create;
use crate::deallocate::deallocate;
use crate::drop::drop_tables;
use crate::lock::lock;
use crate::setting::set;
use crate::transaction::{begin, finish, finish_comes};
use grammar::{Refused, comes};
use sql_ast::Command;
use sql_expressions::one_of_comes;
use sql_tokens::{Token, TokenKind};
use std::alloc::Global;

fn other_command_comes(tokens: &[Token]) -> bool
    ensures { result ≡ begins_in grammar.begins_other_command tokens.now }
{
    comes(tokens, TokenKind::Create)
        || comes(tokens, TokenKind::Drop)
        || comes(tokens, TokenKind::Alter)
        || comes(tokens, TokenKind::Lock)
        || comes(tokens, TokenKind::Deallocate)
}

/// Whether a command comes next.
pub fn command_comes(tokens: &[Token]) -> bool
    ensures { result ≡ begins_in grammar.begins_command tokens.now }
{
    one_of_comes(tokens, TokenKind::Begin, TokenKind::Start)
        || finish_comes(tokens)
        || one_of_comes(tokens, TokenKind::Set, TokenKind::Reset)
        || other_command_comes(tokens)
}

/// The command with which the tokens begin, and the tokens behind it. `text` is the text whose tokens
/// they are.
pub fn command<'a>(
    alloc: Global,
    text: &[u8],
    tokens: &'a [Token],
) -> Result<(Command, &'a [Token]), Refused>
    ensures { Gives (λ x. (command_tree x.0, x.1.now)) result ((grammar.command text.now).read tokens.now) }
{
    if one_of_comes(tokens, TokenKind::Begin, TokenKind::Start) {
        begin(tokens)
    } else if finish_comes(tokens) {
        finish(tokens)
    } else if one_of_comes(tokens, TokenKind::Set, TokenKind::Reset) {
        set(alloc, text, tokens)
    } else if comes(tokens, TokenKind::Create) {
        create(alloc, text, tokens)
    } else if comes(tokens, TokenKind::Drop) {
        drop_tables(alloc, text, tokens)
    } else if comes(tokens, TokenKind::Alter) {
        alter(alloc, text, tokens)
    } else if comes(tokens, TokenKind::Lock) {
        lock(alloc, text, tokens)
    } else {
        deallocate(alloc, text, tokens)
    }
}

/// Tokens that are read to their end are that command and no other; where they are refused, they stop there
/// to begin one, or go on there only without limits. The call does nothing.
pub fn commands_are_read()
    ensures { (text : List ℕ) (tokens : List OneToken) (read : Result CommandTree OneRefusal) → Gives (λ x. x) read (read_whole (grammar.command text) tokens) → Parses (grammar.command text) (λ x. x) tokens read }
{}

/// No text is two commands, even where the second is one without limits. The call does nothing.
pub fn no_two_commands()
    ensures { (text : List ℕ) (tokens : List OneToken) (x y : CommandTree) → (grammar.command text).texts tokens x → (grammar.command text).free tokens y → y ≡ x }
{}
