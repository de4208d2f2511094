//! The value that a text spells.
//!
//! Each kind has a reader that takes no memory and answers the value or one of four faults; the
//! last step puts a fault's SQLSTATE and texts together. A number of any count of digits is read
//! in a machine word: past the largest bigint it makes no difference how far.

ghost use Rattle.std.specs.Prelude.{◌≡◌, ◌≢◌, ◌<◌, ◌+◌, length, min, true, IfOk};
ghost use Rattle.std.specs.Option.{option_map};
ghost use Rattle.std.specs.Str.{str_eq_ignore_ascii_case};
ghost use Rattle.value_rules.specs.Reads.{number_of, signed, integer_of, in_range, truth_of, two_at, digits_at, is_date_form, day_of, date_of, reading, read_fault, reads};
ghost use Rattle.value_rules.specs.Ranges as spec;
ghost use Rattle.value_rules.specs.Ranges.{or_fault};
ghost use Rattle.value_rules.specs.declared.reading.ReadFault.TheVariants.{NumberRange};
ghost use Rattle.pg_values.specs.declared.value.Kind.TheVariants.{Text as KText};
ghost use Rattle.pg_values.specs.Refusals.{IsAnswer};

use crate::range::fitted;
use jiff_core::civil::Date;
use pg_values::{Fault, Kind, NoMemory, PgText, Refusal, Value};
use refusals::{date_out_of_range, no_date, no_such_value, out_of_range};
use std::alloc::Global;

#[derive(Clone, Copy, Debug)]
enum ReadFault {
    Form,
    NumberRange,
    DateForm,
    DateRange,
}

// The number of the digits, or 9223372036854775809 where it is larger.
fn digits(text: &[u8]) -> Option<u64>
    ensures { result ≡ option_map (λ n. min n 9223372036854775809) (number_of text.now) }
{
    if text.is_empty() {
        return None;
    }
    let mut number = 0u64;
    for byte in text {
        if !byte.is_ascii_digit() {
            return None;
        }
        number = number
            .saturating_mul(10)
            .saturating_add((*byte - b'0') as u64)
            .min(9_223_372_036_854_775_809);
    }
    Some(number)
}

fn ranged(wide: bool, z: i128) -> Result<Value, ReadFault>
    ensures { result ≡ or_fault NumberRange (spec.fitted wide z) }
{
    match fitted(wide, z) {
        Some(value) => Ok(value),
        None => Err(ReadFault::NumberRange),
    }
}

// The number of the digits, 0 less it where it is negative.
fn read_signed(wide: bool, negative: bool, text: &[u8]) -> Result<Value, ReadFault>
    ensures { result ≡ in_range wide (option_map (signed negative) (number_of text.now)) }
{
    match digits(text) {
        None => Err(ReadFault::Form),
        Some(number) => {
            if negative {
                ranged(wide, -(number as i128))
            } else {
                ranged(wide, number as i128)
            }
        }
    }
}

fn read_integer(wide: bool, text: &[u8]) -> Result<Value, ReadFault>
    ensures { result ≡ in_range wide (integer_of text.now) }
{
    if text.is_empty() {
        return Err(ReadFault::Form);
    }
    if text[0] == b'-' {
        return read_signed(wide, true, &text[1..]);
    }
    if text[0] == b'+' {
        return read_signed(wide, false, &text[1..]);
    }
    read_signed(wide, false, text)
}

fn is_word(text: &[u8], word: &[u8]) -> bool
    ensures { result ≡ str_eq_ignore_ascii_case text.now word.now }
{
    text.eq_ignore_ascii_case(word)
}

fn read_truth(text: &[u8]) -> Result<Value, ReadFault>
    ensures { result ≡ truth_of text.now }
{
    if is_word(text, b"t") || is_word(text, b"true") {
        return Ok(Value::Truth(true));
    }
    if is_word(text, b"f") || is_word(text, b"false") {
        return Ok(Value::Truth(false));
    }
    Err(ReadFault::Form)
}

fn digits_at(text: &[u8], i: usize) -> bool
    requires { i + 1 < length text.now }
    ensures { result ≡ digits_at text.now i }
{
    text[i].is_ascii_digit() && text[i + 1].is_ascii_digit()
}

fn is_date_form(text: &[u8]) -> bool
    ensures { result ≡ is_date_form text.now }
{
    text.len() == 10
        && digits_at(text, 0)
        && digits_at(text, 2)
        && text[4] == b'-'
        && digits_at(text, 5)
        && text[7] == b'-'
        && digits_at(text, 8)
}

fn two_at(text: &[u8], i: usize) -> u8
    requires in_text { i + 1 < length text.now }
    requires digits { digits_at text.now i ≡ true }
    ensures value { result ≡ two_at text.now i }
    ensures small { result < 100 }
{
    (text[i] - b'0') * 10 + (text[i + 1] - b'0')
}

fn day_of(year: u16, month: u8, day: u8) -> Result<Value, ReadFault>
    requires year { year < 10000 }
    requires month { month < 100 }
    requires day { day < 100 }
    ensures { result ≡ day_of year month day }
{
    if year == 0 {
        return Err(ReadFault::DateRange);
    }
    match Date::new(year as i16, month as i8, day as i8) {
        Ok(date) => Ok(Value::Day(date.to_unix_epoch_day())),
        Err(_) => Err(ReadFault::DateRange),
    }
}

fn read_date(text: &[u8]) -> Result<Value, ReadFault>
    ensures { result ≡ date_of text.now }
{
    if !is_date_form(text) {
        return Err(ReadFault::DateForm);
    }
    let year = two_at(text, 0) as u16 * 100 + two_at(text, 2) as u16;
    day_of(year, two_at(text, 5), two_at(text, 8))
}

// What a text of this kind spells, but for a text, which is its bytes.
fn read_plain(kind: Kind, text: &[u8]) -> Result<Value, ReadFault>
    requires { kind ≢ KText }
    ensures { result ≡ reading kind text.now }
{
    match kind {
        Kind::Int4 => read_integer(false, text),
        Kind::Int8 => read_integer(true, text),
        Kind::Text => unreachable!(),
        Kind::Day => read_date(text),
        Kind::Truth => read_truth(text),
    }
}

fn read_fault(alloc: Global, kind: Kind, text: &[u8], fault: ReadFault) -> Result<Fault, NoMemory>
    ensures { IfOk result (λ f. f ≡ read_fault kind text.now fault) }
{
    match fault {
        ReadFault::Form => no_such_value(alloc, text, kind),
        ReadFault::NumberRange => Ok(out_of_range(alloc)),
        ReadFault::DateForm => no_date(alloc, text),
        ReadFault::DateRange => Ok(date_out_of_range(alloc)),
    }
}

/// The value of the kind that the bytes spell, or the fault that they are refused with. Only a
/// text and a fault take memory.
pub fn read_value(alloc: Global, kind: Kind, text: &[u8]) -> Result<Value, Refusal>
    ensures { IsAnswer result (reads kind text.now) }
{
    if matches!(kind, Kind::Text) {
        return Ok(Value::Text(PgText::from_bytes(alloc, text)?));
    }
    match read_plain(kind, text) {
        Ok(value) => Ok(value),
        Err(fault) => Err(Refusal::Sql(read_fault(alloc, kind, text, fault)?)),
    }
}
