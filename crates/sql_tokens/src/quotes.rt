ghost use Rattle.std.specs.Prelude.{◌≡◌, ◌<◌, length};
ghost use Rattle.sql_tokens.specs.Pieces as pieces;
ghost use Rattle.sql_tokens.specs.Quotes as quotes;

use crate::TokenKind;
use crate::piece::Piece;
use grammar::closing;

/// A string, from its opening quote on.
#[tactic(auto, unfolding(crate::specs::Quotes::string))]
pub fn string(z: &[u8]) -> Piece
    requires { 0 < length z.now }
    ensures value { result ≡ quotes.string z.now }
    ensures within { pieces.IsWithin z.now result }
{
    match closing(b'\'', &z[1..]) {
        None => Piece::Broken,
        Some(end) => Piece::Lexeme(TokenKind::Text, end),
    }
}

/// A quoted name, from its opening quote on.
#[tactic(auto, unfolding(crate::specs::Quotes::quoted_name))]
pub fn quoted_name(z: &[u8]) -> Piece
    requires { 0 < length z.now }
    ensures value { result ≡ quotes.quoted_name z.now }
    ensures within { pieces.IsWithin z.now result }
{
    match closing(b'"', &z[1..]) {
        None => Piece::Broken,
        Some(2) => Piece::Broken,
        Some(end) => Piece::Lexeme(TokenKind::QuotedName, end),
    }
}
