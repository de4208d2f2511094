ghost use Rattle.std.specs.Prelude.{◌≡◌, ◌++◌, OnOk, OnErr, IfOk, map, drop, option_copied};
ghost use Rattle.out_text.specs.FaultText as spec;

use pg_values::{Fault, NoMemory, PgText};
use std::alloc::Global;

// The states that have one text.
const TEXTS: [(&[u8], &[u8]); 24] = [
    (b"0A000", b"<word> is not in this profile"),
    (b"22003", b"number out of range"),
    (b"22007", b"<text> is no date"),
    (b"22008", b"date out of range"),
    (b"22012", b"division by zero"),
    (b"2201W", b"negative LIMIT"),
    (b"2201X", b"negative OFFSET"),
    (b"22023", b"no value <v> for <setting>"),
    (b"22P02", b"<text> is no <kind>"),
    (b"23502", b"column <c> of <leaf> is null"),
    (b"25P01", b"LOCK TABLE outside a transaction"),
    (b"25P02", b"the transaction has failed"),
    (b"26000", b"no prepared statement <n>"),
    (b"40P01", b"deadlock of <s>"),
    (b"42701", b"column <c> is there twice"),
    (b"42702", b"column <c> is ambiguous"),
    (b"42703", b"no column <c>"),
    (b"42712", b"table name <a> is used twice"),
    (b"42P02", b"no parameter <n>"),
    (b"42P05", b"prepared statement <n> is there"),
    (b"42P07", b"table <t> is there"),
    (b"42P10", b"no output column <n>"),
    (b"54000", b"too many <which>"),
    (b"57014", b"statement cancelled"),
];

fn texts() -> &'static [(&'static [u8], &'static [u8])]
    ensures { map (λ line. (line.0.now, line.1.now)) result.now ≡ spec.texts }
{
    &TEXTS
}

fn text_beside<'a>(code: &[u8], lines: &[(&'a [u8], &'a [u8])]) -> Option<&'a [u8]>
    ensures { option_copied result ≡ spec.text_beside code.now (map (λ line. (line.0.now, line.1.now)) lines.now) }
{
    let mut lines = lines;
    while let [line, rest @ ..] = lines {
        if line.0 == code {
            return Some(line.1);
        }
        lines = rest;
    }
    None
}

// Writes the first of the words, where there is one, and answers the others.
fn write_word<'a>(words: &'a [PgText], out: &mut Vec<u8>) -> Result<&'a [PgText], NoMemory>
    ensures word { OnOk result (out.new.items ≡ out.old.items ++ spec.first_word words.now) }
    ensures rest { IfOk result (λ rest. rest.now ≡ drop 1 words.now) }
{
    match words.split_first() {
        None => Ok(words),
        Some((word, rest)) => {
            out.extend_from_slice(word.as_bytes())?;
            Ok(rest)
        }
    }
}

fn write_further(words: &[PgText], out: &mut Vec<u8>) -> Result<(), NoMemory>
    ensures { OnOk result (out.new.items ≡ out.old.items ++ spec.further_words words.now) }
{
    for word in words {
        out.extend_from_slice(b", ")?;
        out.extend_from_slice(word.as_bytes())?;
    }
    Ok(())
}

fn write_filled(text: &[u8], words: &[PgText], out: &mut Vec<u8>) -> Result<(), NoMemory>
    ensures { OnOk result (out.new.items ≡ out.old.items ++ spec.filled text.now words.now) }
{
    let mut text = text;
    let mut words = words;
    let mut in_hole = false;
    while let [byte, rest @ ..] = text {
        if in_hole {
            in_hole = *byte != b'>';
        } else if *byte == b'<' {
            words = write_word(words, out)?;
            in_hole = true;
        } else {
            out.push(*byte)?;
        }
        text = rest;
    }
    write_further(words, out)
}

fn text_of_fault(alloc: Global, fault: &Fault) -> Result<Vec<u8>, NoMemory>
    ensures { IfOk result (λ text. text.items ≡ spec.fault_text fault.now) }
{
    let mut text = Vec::from_slice(alloc, &fault.code.bytes)?;
    text.push(b' ')?;
    match text_beside(&fault.code.bytes, texts()) {
        Some(holes) => write_filled(holes, fault.args.as_slice(), &mut text)?,
        None => {
            if let Some((holes, words)) = fault.args.as_slice().split_first() {
                write_filled(holes.as_bytes(), words, &mut text)?;
            }
        }
    }
    Ok(text)
}

/// Appends the state and the text of a fault: `<code> <text>`.
pub fn write_fault_text(alloc: Global, fault: &Fault, out: &mut Vec<u8>) -> Result<(), NoMemory>
    ensures ok { OnOk result (out.new.items ≡ out.old.items ++ spec.fault_text fault.now) }
    ensures err { OnErr result (out.new.items ≡ out.old.items) }
{
    let text = text_of_fault(alloc, fault)?;
    out.extend_from_slice(&text)?;
    Ok(())
}
