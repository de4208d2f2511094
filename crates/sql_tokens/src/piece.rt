ghost use Rattle.std.specs.Prelude.{◌≡◌, ◌<◌, ◌≤◌, ◌+◌, ◌^◌, length, take, slice_index, true};
ghost use Rattle.std.specs.Str.{is_utf8, IsAscii};
ghost use Rattle.sql_tokens.specs.Pieces as pieces;

use crate::TokenKind;
use crate::bytes::{Class, belongs, past};
use crate::comments::{minus, slash};
use crate::numbers::{begins_number, number, parameter};
use crate::quotes::{quoted_name, string};
use crate::signs::sign;
use crate::words::word_kind;
use grammar::byte;

/// What stands at the front of a text, with its length in bytes.
#[derive(Clone, Copy, Debug)]
pub enum Piece {
    /// Blanks or a comment.
    Gap(usize),
    Lexeme(TokenKind, usize),
    /// Nothing that can be read.
    Broken,
}

fn name(z: &[u8]) -> Piece
    requires { pieces.begins_name z.now ≡ true }
    ensures value { result ≡ pieces.name z.now }
    ensures within { pieces.IsWithin z.now result }
{
    let end = past(Class::NamePart, z, 0);
    Piece::Lexeme(word_kind(&z[..end]), end)
}

#[tactic(auto, unfolding(crate::specs::Pieces::mark))]
fn mark(z: &[u8]) -> Piece
    requires { 0 < length z.now }
    ensures value { result ≡ pieces.mark z.now }
    ensures within { pieces.IsWithin z.now result }
{
    match z[0] {
        b'-' => minus(z),
        b'/' => slash(z),
        b'\'' => string(z),
        b'"' => quoted_name(z),
        b'$' => parameter(z),
        b => sign(b, byte(z, 1)),
    }
}

#[tactic(auto, unfolding(crate::specs::Pieces::front))]
fn front(z: &[u8]) -> Piece
    requires { 0 < length z.now }
    ensures value { result ≡ pieces.front z.now }
    ensures within { pieces.IsWithin z.now result }
{
    if belongs(Class::Blank, byte(z, 0)) {
        Piece::Gap(past(Class::Blank, z, 0))
    } else if belongs(Class::NameStart, byte(z, 0)) {
        name(z)
    } else if begins_number(z) {
        number(z)
    } else {
        mark(z)
    }
}

// The most bytes that are asked one by one.
const FEW: usize = 24;

// Whether the bytes are few, and each is ASCII, as in most pieces.
fn are_few_ascii(bytes: &[u8]) -> bool
    ensures { result ≡ true → IsAscii bytes.now }
{
    if bytes.len() > FEW {
        return false;
    }
    for b in bytes {
        if *b >= 128 {
            return false;
        }
    }
    true
}

fn is_text(bytes: &[u8]) -> bool
    ensures { result ≡ is_utf8 bytes.now }
{
    if are_few_ascii(bytes) {
        return true;
    }
    match std::str::from_utf8(bytes) {
        Ok(_) => true,
        Err(_) => false,
    }
}

/// The piece at the front of a text that is not empty.
#[tactic(auto, unfolding(crate::specs::Pieces::next_piece))]
pub fn next_piece(z: &[u8]) -> Piece
    requires { 0 < length z.now }
    ensures value { result ≡ pieces.next_piece z.now }
    ensures within { pieces.IsWithin z.now result }
{
    let front = front(z);
    if is_text(&z[..length_of(front)]) {
        front
    } else {
        Piece::Broken
    }
}

fn length_of(piece: Piece) -> usize
    ensures { result ≡ pieces.length_of piece }
{
    match piece {
        Piece::Gap(n) => n,
        Piece::Lexeme(_, n) => n,
        Piece::Broken => 0,
    }
}
