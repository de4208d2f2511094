ghost use Rattle.std.specs.Prelude.{◌≡◌, ◌<◌, ◌≤◌, ◌+◌, ◌^◌, length, slice_index, false, IfSome};
ghost use Rattle.sql_tokens.specs.Comments as comments;
ghost use Rattle.sql_tokens.specs.Pieces as pieces;

use crate::TokenKind;
use crate::bytes::{Class, past};
use crate::piece::Piece;
use grammar::byte;

/// `-`, or a comment that goes to the end of its line.
#[tactic(auto, unfolding(crate::specs::Comments::minus))]
pub fn minus(z: &[u8]) -> Piece
    requires { 0 < length z.now }
    ensures value { result ≡ comments.minus z.now }
    ensures within { pieces.IsWithin z.now result }
{
    if byte(z, 1) == b'-' {
        Piece::Gap(past(Class::Line, z, 2))
    } else {
        Piece::Lexeme(TokenKind::Minus, 1)
    }
}

fn comment_step(depth: usize, is_second: bool, b: u8, next: u8) -> Option<(usize, bool)>
    requires { depth < 2 ^ 63 }
    ensures value { result ≡ comments.comment_step depth is_second b next }
    ensures within { IfSome result (λ x. x.0 ≤ depth + 1) }
{
    if is_second {
        return Some((depth, false));
    }
    if b == b'*' && next == b'/' {
        return if depth == 0 {
            None
        } else {
            Some((depth - 1, true))
        };
    }
    if b == b'/' && next == b'*' {
        return Some((depth + 1, true));
    }
    Some((depth, false))
}

/// The place behind the sign that closes a comment, for a text that begins behind the opening one.
fn comment_end(mut z: &[u8]) -> Option<usize>
    requires { length z.now < 2 ^ 63 }
    ensures value { result ≡ comments.comment_end 0 false 2 z.entry.now }
    ensures within { IfSome result (λ end. (0 < end) × (end ≤ length z.entry.now + 2)) }
{
    let mut depth: usize = 0;
    let mut is_second = false;
    let mut at = 2;
    while let [b, rest @ ..] = z {
        let Some((deeper, second)) = comment_step(depth, is_second, *b, byte(rest, 0)) else {
            return Some(at + 2);
        };
        depth = deeper;
        is_second = second;
        at += 1;
        z = rest;
    }
    None
}

/// `/`, or a comment that goes to its `*/`.
#[tactic(auto, unfolding(crate::specs::Comments::slash))]
pub fn slash(z: &[u8]) -> Piece
    requires { 0 < length z.now }
    ensures value { result ≡ comments.slash z.now }
    ensures within { pieces.IsWithin z.now result }
{
    if byte(z, 1) != b'*' {
        return Piece::Lexeme(TokenKind::Slash, 1);
    }
    match comment_end(&z[2..]) {
        None => Piece::Broken,
        Some(end) => Piece::Gap(end),
    }
}
