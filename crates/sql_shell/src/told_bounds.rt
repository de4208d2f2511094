//! Answers as text.

use crate::bound_words::bound_of;
use bound_forms::{Bound, Edge, Level, Point};
use pg_values::{Fault, NoMemory, Refusal, Value, write_value};
use std::alloc::Global;
use table_binder::check_bound;

/// What became of a bound that was to be added.
#[derive(Debug, Drop)]
pub(crate) enum Told {
    Added,
    Refused(Fault),
    Modulus(u32),
    Overlaps(usize),
    Inside(usize),
}

fn tell_value(alloc: Global, value: &Value, out: &mut Vec<u8>) -> Result<(), NoMemory> {
    match value {
        Value::Null => out.extend_from_slice(b"null")?,
        Value::Int8(_) => out.extend_from_slice(b"l:")?,
        Value::Text(_) => out.extend_from_slice(b"s:")?,
        Value::Day(day) => {
            let text = format!(in alloc; "d:{day}")?;
            out.extend_from_slice(text.as_bytes())?;
            return Ok(());
        }
        _ => {}
    }
    write_value(alloc, value, out)
}

fn tell_point(alloc: Global, point: &Point, out: &mut Vec<u8>) -> Result<(), NoMemory> {
    for edge in point.as_slice() {
        out.push(b' ')?;
        match edge {
            Edge::Min => out.extend_from_slice(b"min")?,
            Edge::At(value) => tell_value(alloc, value, out)?,
            Edge::Max => out.extend_from_slice(b"max")?,
        }
    }
    Ok(())
}

fn tell_bound(alloc: Global, bound: &Bound, out: &mut Vec<u8>) -> Result<(), NoMemory> {
    match bound {
        Bound::Range { lower, upper } => {
            out.extend_from_slice(b"FROM")?;
            tell_point(alloc, lower, out)?;
            out.extend_from_slice(b" TO")?;
            tell_point(alloc, upper, out)
        }
        Bound::List { values } => {
            out.extend_from_slice(b"IN")?;
            for value in values.as_slice() {
                out.push(b' ')?;
                tell_value(alloc, value, out)?;
            }
            Ok(())
        }
        Bound::Hash { modulus, remainder } => {
            let text = format!(in alloc; "WITH {modulus} {remainder}")?;
            out.extend_from_slice(text.as_bytes())?;
            Ok(())
        }
        Bound::Default => {
            out.extend_from_slice(b"DEFAULT")?;
            Ok(())
        }
    }
}

fn tell_fault(fault: &Fault, out: &mut Vec<u8>) -> Result<(), NoMemory> {
    out.extend_from_slice(&fault.code.bytes)?;
    for (i, text) in fault.args.as_slice().iter().enumerate() {
        out.push(if i == 0 { b' ' } else { b'|' })?;
        out.extend_from_slice(text.as_bytes())?;
    }
    Ok(())
}

/// The bound that is meant by the words, or its fault.
pub(crate) fn tell_checked(
    alloc: Global,
    level: &Level,
    words: &str,
    out: &mut Vec<u8>,
) -> Result<(), NoMemory> {
    let raw = bound_of(alloc, words)?;
    match check_bound(alloc, level, &raw) {
        Ok(bound) => tell_bound(alloc, &bound, out),
        Err(Refusal::Sql(fault)) => tell_fault(&fault, out),
        Err(Refusal::NoMemory) => Err(NoMemory),
    }
}

fn push_mark(alloc: Global, mark: u8, number: u64, out: &mut Vec<u8>) -> Result<(), NoMemory> {
    out.push(mark)?;
    let text = format!(in alloc; "{number}")?;
    out.extend_from_slice(text.as_bytes())?;
    Ok(())
}

/// What became of a bound.
pub(crate) fn push_answer(alloc: Global, told: Told, out: &mut Vec<u8>) -> Result<(), NoMemory> {
    match told {
        Told::Added => {
            out.push(b'+')?;
            Ok(())
        }
        Told::Refused(fault) => tell_fault(&fault, out),
        Told::Modulus(modulus) => push_mark(alloc, b'm', modulus as u64, out),
        Told::Overlaps(at) => push_mark(alloc, b'o', at as u64, out),
        Told::Inside(at) => push_mark(alloc, b'i', at as u64, out),
    }
}
