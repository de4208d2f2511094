use crate::kind::{ScriptTokenKind, is_name, same_kind};
use grammar::Lexeme;

/// A token and its places in the text: its first byte, and the byte behind its last.
#[derive(Clone, Copy, Debug, PartialEq, Eq)]
pub struct Token {
    pub kind: ScriptTokenKind,
    pub start: usize,
    pub end: usize,
}

impl Lexeme for Token {
    ghost use Rattle.spec_reader.specs.Scripts as scripts;

    type Kind = ScriptTokenKind;

    ghost a = { scripts.a };

    ghost a_name = { scripts.a_name };

    fn is(self, kind: ScriptTokenKind) -> bool {
        same_kind(self.kind, kind)
    }

    fn is_name(self) -> bool {
        is_name(self.kind)
    }
}
