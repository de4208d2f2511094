ghost use Rattle.std.specs.Prelude.{◌≡◌, ◌≤◌, ◌<◌, ◌≢◌, [], length};
ghost use Rattle.spec_reader.specs.Pieces as pieces;

use crate::bytes::{Run, begins_name, is_blank, is_digit, run_len};
use crate::kind::ScriptTokenKind;
use crate::words::word_kind;
use grammar::closing;

/// What stands at the front of a text: a token of a kind, or a gap between tokens; and its length.
#[derive(Clone, Copy)]
pub struct Piece {
    pub kind: Option<ScriptTokenKind>,
    pub len: usize,
}

fn gap(len: usize) -> Piece
    ensures { result ≡ pieces.gap len }
{
    Piece { kind: None, len }
}

fn token(kind: ScriptTokenKind, len: usize) -> Piece
    ensures { result ≡ pieces.token kind len }
{
    Piece {
        kind: Some(kind),
        len,
    }
}

fn name(text: &[u8]) -> Piece
    ensures { result ≡ pieces.name text.now }
{
    let len = run_len(Run::Name, text);
    token(word_kind(&text[..len]), len)
}

fn is_one_line(text: &[u8]) -> bool
    ensures { result ≡ pieces.is_one_line text.now }
{
    run_len(Run::Comment, text) == text.len()
}

fn unclosed(text: &[u8]) -> Piece
    requires { text.now ≢ [] }
    ensures same { result ≡ pieces.unclosed text.now }
    ensures some { 0 < result.len }
    ensures within { result.len ≤ length text.now }
{
    token(
        ScriptTokenKind::Fault,
        run_len(Run::Comment, &text[1..]) + 1,
    )
}

fn quoted_name(text: &[u8]) -> Piece
    requires { text.now ≢ [] }
    ensures same { result ≡ pieces.quoted_name text.now }
    ensures some { 0 < result.len }
    ensures within { result.len ≤ length text.now }
{
    let rest = &text[1..];
    match closing(b'"', rest) {
        Some(n) if is_one_line(&text[..n]) => token(ScriptTokenKind::QuotedName, n),
        _ => unclosed(text),
    }
}

fn block(text: &[u8]) -> Piece
    ensures { result ≡ pieces.block text.now }
{
    let len = run_len(Run::Block, text);
    if len < text.len() {
        token(ScriptTokenKind::Block, len + 1)
    } else {
        token(ScriptTokenKind::Fault, text.len())
    }
}

fn sign(b: u8) -> Piece
    ensures { result ≡ pieces.sign b }
{
    match b {
        b'(' => token(ScriptTokenKind::OpenParenthesis, 1),
        b')' => token(ScriptTokenKind::CloseParenthesis, 1),
        b',' => token(ScriptTokenKind::Comma, 1),
        b'*' => token(ScriptTokenKind::Star, 1),
        _ => token(ScriptTokenKind::Fault, 1),
    }
}

/// The piece at the front of a text that is not empty.
pub fn piece_of(text: &[u8]) -> Piece
    requires { text.now ≢ [] }
    ensures same { result ≡ pieces.piece_of text.now }
    ensures some { 0 < result.len }
    ensures within { result.len ≤ length text.now }
{
    let b = text[0];
    if is_blank(b) {
        gap(1)
    } else if b == b'#' {
        gap(run_len(Run::Comment, text))
    } else if begins_name(b) {
        name(text)
    } else if is_digit(b) {
        token(ScriptTokenKind::Number, run_len(Run::Digits, text))
    } else if b == b'"' {
        quoted_name(text)
    } else if b == b'{' {
        block(text)
    } else {
        sign(b)
    }
}
