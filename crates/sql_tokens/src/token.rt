use crate::{TokenKind, is_name, same_kind};
use grammar::Lexeme;

/// A token and its places in the text: its first byte, and the byte behind its last.
///
/// A fault has both at the first byte of what could not be read.
#[derive(Clone, Copy, Debug, PartialEq, Eq)]
pub struct Token {
    pub kind: TokenKind,
    pub start: usize,
    pub end: usize,
}

impl Lexeme for Token {
    ghost use Rattle.sql_tokens.specs.Classes as classes;

    type Kind = TokenKind;

    ghost a = { classes.a };

    ghost a_name = { classes.a_name };

    fn is(self, kind: TokenKind) -> bool {
        same_kind(self.kind, kind)
    }

    fn is_name(self) -> bool {
        is_name(self.kind)
    }
}
