ghost use Rattle.std.specs.Prelude.{◌≡◌, ◌∷◌, [], ◌++◌, ◌+◌, ◌<◌, ◌^◌, if◌then◌else◌, filter, Some, OnOk, IfOk};
ghost use Rattle.spec_reader.specs.Tokens as cut;
ghost use Rattle.spec_reader.specs.declared.kind.ScriptTokenKind.TheVariants.{Fault};

use crate::kind::ScriptTokenKind;
use crate::piece::{Piece, piece_of};
use crate::token::Token;
use pg_values::NoMemory;
use std::alloc::Global;

fn note(list: &mut Vec<Token>, piece: Piece, at: usize) -> Result<(), NoMemory>
    requires { at + piece.len < 2 ^ 64 }
    ensures { OnOk result (list.new.items ≡ list.old.items ++ cut.noted piece.kind at (at + piece.len)) }
{
    if let Some(kind) = piece.kind {
        list.push(Token {
            kind,
            start: at,
            end: at + piece.len,
        })?;
    }
    Ok(())
}

fn read_pieces(alloc: Global, text: &[u8]) -> Result<Vec<Token>, NoMemory>
    ensures { IfOk result (λ v. v.items ≡ cut.tokens_from 0 0 text.now) }
{
    let mut list = Vec::new(alloc);
    let mut at = 0;
    while at < text.len() {
        let piece = piece_of(&text[at..]);
        note(&mut list, piece, at)?;
        at += piece.len;
    }
    Ok(list)
}

fn push_if(kept: bool, list: &mut Vec<Token>, token: Token) -> Result<(), NoMemory>
    ensures { OnOk result (list.new.items ≡ list.old.items ++ (if kept then token ∷ [] else [])) }
{
    if kept {
        list.push(token)?;
    }
    Ok(())
}

/// The tokens that end at a place or before.
fn ended_by(alloc: Global, tokens: &[Token], place: usize) -> Result<Vec<Token>, NoMemory>
    ensures { IfOk result (λ v. v.items ≡ filter (cut.ends_by place) tokens.now) }
{
    let mut list = Vec::new(alloc);
    for token in tokens {
        push_if(token.end <= place, &mut list, *token)?;
    }
    Ok(list)
}

/// The tokens that end before a fault, and the fault.
fn up_to_fault(
    alloc: Global,
    tokens: &[Token],
    start: usize,
    end: usize,
) -> Result<Vec<Token>, NoMemory>
    ensures { IfOk result (λ v. v.items ≡ filter (cut.ends_by start) tokens.now ++ cut.noted (Some Fault) start end) }
{
    let mut list = ended_by(alloc, tokens, start)?;
    list.push(Token {
        kind: ScriptTokenKind::Fault,
        start,
        end,
    })?;
    Ok(list)
}

/// The tokens of a text. In one that is no UTF-8 they end at the first byte that is none, with a
/// fault there.
pub fn read_tokens(alloc: Global, text: &[u8]) -> Result<Vec<Token>, NoMemory>
    ensures { IfOk result (λ v. v.items ≡ cut.tokens_of text.now) }
{
    let list = read_pieces(alloc, text)?;
    match std::str::from_utf8(text) {
        Ok(_) => Ok(list),
        Err(error) => up_to_fault(alloc, &list, error.valid_up_to(), text.len()),
    }
}
