ghost use Rattle.std.specs.Prelude.{◌≡◌, ◌<◌, ◌≤◌, ◌+◌, ◌^◌, length, take, slice_index, true, false, min};
ghost use Rattle.sql_tokens.specs.Numbers as numbers;
ghost use Rattle.sql_tokens.specs.Pieces as pieces;
ghost use Rattle.sql_tokens.specs.Words.{is};

use crate::TokenKind;
use crate::bytes::{Class, belongs, past};
use crate::piece::Piece;
use grammar::byte;

/// The largest number of a parameter.
pub const MOST_PARAMETER: u64 = 4_294_967_295;

/// What stands for every number that is no `bigint`.
pub const NO_BIGINT: u64 = 9_223_372_036_854_775_808;

fn is_digit_at(z: &[u8], at: usize) -> bool
    ensures value { result ≡ numbers.is_digit_at z.now at }
    ensures within { result ≡ true → at < length z.now }
{
    belongs(Class::Digit, byte(z, at))
}

fn past_fraction(z: &[u8], at: usize) -> usize
    requires { at ≤ length z.now }
    ensures value { result ≡ numbers.past_fraction z.now at }
    ensures within { (at ≤ result) × (result ≤ length z.now) }
    ensures point { slice_index z.now at ≡ 46 → numbers.is_digit_at z.now (at + 1) ≡ true → at < result }
{
    if byte(z, at) == b'.' && byte(z, at + 1) != b'.' {
        past(Class::Digit, z, at + 1)
    } else {
        at
    }
}

fn past_sign(z: &[u8], at: usize) -> usize
    requires { at ≤ length z.now }
    ensures value { result ≡ numbers.past_sign z.now at }
    ensures within { (at ≤ result) × (result ≤ at + 1) }
{
    if byte(z, at) == b'+' || byte(z, at) == b'-' {
        at + 1
    } else {
        at
    }
}

fn is_exponent(z: &[u8], at: usize) -> bool
    requires { at ≤ length z.now }
    ensures value { result ≡ numbers.is_exponent z.now at }
    ensures within { result ≡ true → numbers.past_sign z.now (at + 1) < length z.now }
{
    (byte(z, at) == b'e' || byte(z, at) == b'E') && is_digit_at(z, past_sign(z, at + 1))
}

fn past_exponent(z: &[u8], at: usize) -> usize
    requires { at ≤ length z.now }
    ensures value { result ≡ numbers.past_exponent z.now at }
    ensures within { (at ≤ result) × (result ≤ length z.now) }
{
    if is_exponent(z, at) {
        past(Class::Digit, z, past_sign(z, at + 1))
    } else {
        at
    }
}

pub fn begins_number(z: &[u8]) -> bool
    ensures value { result ≡ numbers.begins_number z.now }
{
    is_digit_at(z, 0) || (byte(z, 0) == b'.' && is_digit_at(z, 1))
}

/// A piece of the kind, unless a name stands right behind it.
fn apart(kind: TokenKind, z: &[u8], end: usize) -> Piece
    requires within { (0 < end) × (end ≤ length z.now) }
    requires kind { is kind TokenKind.Fault ≡ false }
    ensures value { result ≡ numbers.apart kind z.now end }
    ensures within { pieces.IsWithin z.now result }
{
    if belongs(Class::NameStart, byte(z, end)) {
        Piece::Broken
    } else {
        Piece::Lexeme(kind, end)
    }
}

fn kind_of(whole: usize, end: usize) -> TokenKind
    ensures value { result ≡ numbers.kind_of whole end }
    ensures kind { is result TokenKind.Fault ≡ false }
{
    if end == whole {
        TokenKind::Number
    } else {
        TokenKind::Decimal
    }
}

#[tactic(auto, unfolding(crate::specs::Numbers::number))]
pub fn number(z: &[u8]) -> Piece
    requires { numbers.begins_number z.now ≡ true }
    ensures value { result ≡ numbers.number z.now }
    ensures within { pieces.IsWithin z.now result }
{
    let whole = past(Class::Digit, z, 0);
    let end = past_exponent(z, past_fraction(z, whole));
    apart(kind_of(whole, end), z, end)
}

/// A `$` and what follows it.
#[tactic(auto, unfolding(crate::specs::Numbers::parameter))]
pub fn parameter(z: &[u8]) -> Piece
    requires { 0 < length z.now }
    ensures value { result ≡ numbers.parameter z.now }
    ensures within { pieces.IsWithin z.now result }
{
    let end = past(Class::Digit, z, 1);
    if end == 1 || MOST_PARAMETER < number_of_digits(&z[..end]) {
        Piece::Broken
    } else {
        apart(TokenKind::Parameter, z, end)
    }
}

// Below this a number has room for one more digit.
const SHORT: u64 = 100_000_000_000_000_000;

fn with_digit(n: u64, b: u8) -> u64
    requires { n ≤ 2 ^ 63 }
    ensures value { result ≡ min NO_BIGINT (numbers.with_digit n b) }
    ensures within { result ≤ 2 ^ 63 }
{
    if !belongs(Class::Digit, b) {
        return n;
    }
    if n < SHORT {
        return n * 10 + u64::from(b - b'0');
    }
    let longer = u128::from(n) * 10 + u128::from(b - b'0');
    if longer < u128::from(NO_BIGINT) {
        longer as u64
    } else {
        NO_BIGINT
    }
}

/// The number that the digits among the bytes write, or `NO_BIGINT`.
pub fn number_of_digits(bytes: &[u8]) -> u64
    ensures { result ≡ numbers.number_of_digits bytes.now }
{
    let mut n = 0;
    for b in bytes {
        n = with_digit(n, *b);
    }
    n
}
