ghost use Rattle.std.specs.Prelude.{◌≡◌, ◌<◌, ◌≤◌, ◌+◌, ◌^◌, ◌++◌, ◌∷◌, [], length, IfOk};
ghost use Rattle.sql_tokens.specs.Pieces as pieces;
ghost use Rattle.sql_tokens.specs.Tokens as tokens;

use crate::piece::{Piece, next_piece};
use crate::{Token, TokenKind};
use grammar::behind;
use pg_values::NoMemory;
use std::alloc::Global;

/// Notes the token of the piece at the front, and answers the piece's length where reading goes on.
fn read_piece(told: &mut Vec<Token>, at: usize, z: &[u8]) -> Result<Option<usize>, NoMemory>
    requires some { 0 < length z.now }
    requires short { at + length z.now < 2 ^ 63 }
    ensures told { IfOk result (λ _. told.new.items ≡ told.old.items ++ tokens.told at (pieces.next_piece z.now)) }
    ensures taken { IfOk result (λ n. n ≡ tokens.taken (pieces.next_piece z.now)) }
    ensures within { IfOk result (λ _. pieces.IsWithin z.now (pieces.next_piece z.now)) }
{
    match next_piece(z) {
        Piece::Gap(n) => Ok(Some(n)),
        Piece::Lexeme(kind, n) => {
            told.push(Token {
                kind,
                start: at,
                end: at + n,
            })?;
            Ok(Some(n))
        }
        Piece::Broken => {
            told.push(Token {
                kind: TokenKind::Fault,
                start: at,
                end: at,
            })?;
            Ok(None)
        }
    }
}

/// The tokens of a text in order, with a last one of kind `Fault` where the text goes wrong.
pub fn read_tokens(alloc: Global, text: &[u8]) -> Result<Vec<Token>, NoMemory>
    ensures tokens { IfOk result (λ v. v.items ≡ tokens.tokens_of text.now) }
    ensures places { IfOk result (λ v. tokens.ArePlaced (length text.now) v.items) }
{
    let mut told = Vec::new(alloc);
    let mut rest = text;
    let mut at = 0;
    for _ in 0..text.len() {
        if rest.is_empty() {
            return Ok(told);
        }
        let Some(n) = read_piece(&mut told, at, rest)? else {
            return Ok(told);
        };
        at += n;
        rest = behind(rest, n);
    }
    Ok(told)
}
