ghost use Rattle.std.specs.Prelude.{◌≡◌};
ghost use Rattle.sql_tokens.specs.Signs as signs;

use crate::TokenKind;
use crate::piece::Piece;

fn less(next: u8) -> Piece
    ensures value { result ≡ signs.less next }
    ensures within { signs.IsShort next result }
{
    match next {
        b'=' => Piece::Lexeme(TokenKind::LessEqual, 2),
        b'>' => Piece::Lexeme(TokenKind::NotEqual, 2),
        _ => Piece::Lexeme(TokenKind::Less, 1),
    }
}

fn greater(next: u8) -> Piece
    ensures value { result ≡ signs.greater next }
    ensures within { signs.IsShort next result }
{
    match next {
        b'=' => Piece::Lexeme(TokenKind::GreaterEqual, 2),
        _ => Piece::Lexeme(TokenKind::Greater, 1),
    }
}

fn single(b: u8) -> Piece
    ensures value { result ≡ signs.single b }
    ensures within { signs.IsShort 0 result }
{
    match b {
        b'(' => Piece::Lexeme(TokenKind::OpenParenthesis, 1),
        b')' => Piece::Lexeme(TokenKind::CloseParenthesis, 1),
        b',' => Piece::Lexeme(TokenKind::Comma, 1),
        b';' => Piece::Lexeme(TokenKind::Semicolon, 1),
        b'.' => Piece::Lexeme(TokenKind::Dot, 1),
        b'=' => Piece::Lexeme(TokenKind::Equal, 1),
        b'+' => Piece::Lexeme(TokenKind::Plus, 1),
        b'*' => Piece::Lexeme(TokenKind::Star, 1),
        b'%' => Piece::Lexeme(TokenKind::Percent, 1),
        _ => Piece::Broken,
    }
}

/// A sign, by its first two bytes.
#[tactic(auto, unfolding(crate::specs::Signs::sign))]
pub fn sign(b: u8, next: u8) -> Piece
    ensures value { result ≡ signs.sign b next }
    ensures within { signs.IsShort next result }
{
    match b {
        b'<' => less(next),
        b'>' => greater(next),
        b'!' if next == b'=' => Piece::Lexeme(TokenKind::NotEqual, 2),
        b':' if next == b':' => Piece::Lexeme(TokenKind::TypeCast, 2),
        _ => single(b),
    }
}
