//! Levels and bounds from words.

use bound_forms::{KeyColumn, KeyColumns, Level};
use pg_values::{Kind, NoMemory, PgText, Strategy, Value};
use refusals::left_out;
use std::alloc::Global;
use table_binder::{RawBound, RawEdge, RawEdges, RawValue, RawValues};

/// The number that the word spells.
pub(crate) fn number(word: &str) -> u32 {
    word.parse().unwrap_or(0)
}

fn kind(letter: char) -> Kind {
    match letter {
        'b' => Kind::Int8,
        't' => Kind::Text,
        'd' => Kind::Day,
        'o' => Kind::Truth,
        _ => Kind::Int4,
    }
}

fn text(alloc: Global, text: &str) -> Result<PgText, NoMemory> {
    PgText::from_bytes(alloc, text.as_bytes())
}

fn value(alloc: Global, word: &str) -> Result<RawValue, NoMemory> {
    if let Some(literal) = word.strip_prefix('\'') {
        return Ok(RawValue::Literal(text(alloc, literal)?));
    }
    if let Some(name) = word.strip_prefix('?') {
        return Ok(RawValue::Faulty(left_out(alloc, name.as_bytes())?));
    }
    if let Some(given) = word.strip_prefix("s:") {
        return Ok(RawValue::Given(Value::Text(text(alloc, given)?)));
    }
    if let Some(number) = word.strip_prefix("l:") {
        return Ok(RawValue::Given(Value::Int8(number.parse().unwrap_or(0))));
    }
    if let Some(day) = word.strip_prefix("d:") {
        return Ok(RawValue::Given(Value::Day(day.parse().unwrap_or(0))));
    }
    let given = match word {
        "null" => Value::Null,
        "t" => Value::Truth(true),
        "f" => Value::Truth(false),
        number => Value::Int4(number.parse().unwrap_or(0)),
    };
    Ok(RawValue::Given(given))
}

fn edge(alloc: Global, word: &str) -> Result<RawEdge, NoMemory> {
    match word {
        "min" => Ok(RawEdge::Min),
        "max" => Ok(RawEdge::Max),
        _ => Ok(RawEdge::At(value(alloc, word)?)),
    }
}

fn edges(alloc: Global, words: &str) -> Result<RawEdges, NoMemory> {
    let mut edges = RawEdges::new(alloc);
    for word in words.split(' ') {
        if !word.is_empty() {
            edges.push(edge(alloc, word)?)?;
        }
    }
    Ok(edges)
}

fn values(alloc: Global, words: &str) -> Result<RawValues, NoMemory> {
    let mut values = RawValues::new(alloc);
    for word in words.split(' ') {
        if !word.is_empty() {
            values.push(value(alloc, word)?)?;
        }
    }
    Ok(values)
}

/// The bound of these words.
pub(crate) fn bound_of(alloc: Global, words: &str) -> Result<RawBound, NoMemory> {
    if let Some(range) = words.strip_prefix("FROM ") {
        let (lower, upper) = range.split_once(" TO ").unwrap_or((range, ""));
        let lower = edges(alloc, lower)?;
        let upper = edges(alloc, upper)?;
        return Ok(RawBound::Range { lower, upper });
    }
    if let Some(list) = words.strip_prefix("IN") {
        let values = values(alloc, list)?;
        return Ok(RawBound::List { values });
    }
    if let Some(numbers) = words.strip_prefix("WITH ") {
        let (modulus, remainder) = numbers.split_once(' ').unwrap_or((numbers, ""));
        return Ok(RawBound::Hash {
            modulus: modulus.parse().unwrap_or(0),
            remainder: remainder.parse().unwrap_or(0),
        });
    }
    Ok(RawBound::Default)
}

fn columns(alloc: Global, kinds: &str) -> Result<KeyColumns, NoMemory> {
    let mut columns = KeyColumns::new(alloc);
    for letter in kinds.chars() {
        let position = columns.as_slice().len();
        let kind = kind(letter);
        columns.push(KeyColumn { position, kind })?;
    }
    Ok(columns)
}

/// The level of these words; a list has one key column.
pub(crate) fn level_of(alloc: Global, words: &str) -> Result<Level, NoMemory> {
    let (strategy, kinds) = words.split_once(':').unwrap_or((words, ""));
    let columns = columns(alloc, kinds)?;
    if strategy == "R" {
        return Ok(Level {
            strategy: Strategy::Range,
            columns,
        });
    }
    if strategy == "L" && columns.as_slice().len() == 1 {
        return Ok(Level {
            strategy: Strategy::List,
            columns,
        });
    }
    Ok(Level {
        strategy: Strategy::Hash,
        columns,
    })
}
