//! Texts in a row: the parts of AND and OR.

ghost use Rattle.std.specs.Prelude.{◌≡◌, ◌++◌, OnOk, IfOk};
ghost use Rattle.plan_text.specs.Conditions as conditions;

use pg_values::{NoMemory, PgText};
use std::alloc::Global;

fn write_behind(word: &[u8], texts: &[PgText], out: &mut Vec<u8>) -> Result<(), NoMemory>
    ensures { OnOk result (out.new.items ≡ out.old.items ++ conditions.behind word.now texts.now) }
{
    for text in texts {
        out.extend_from_slice(word)?;
        out.extend_from_slice(text.as_bytes())?;
    }
    Ok(())
}

fn in_a_row(
    alloc: Global,
    word: &[u8],
    first: &PgText,
    others: &[PgText],
) -> Result<PgText, NoMemory>
    ensures { IfOk result (λ t. t ≡ conditions.in_a_row word.now first.now others.now) }
{
    if others.is_empty() {
        return first.copy(alloc);
    }
    let mut text = Vec::new(alloc);
    text.push(b'(')?;
    text.extend_from_slice(first.as_bytes())?;
    write_behind(word, others, &mut text)?;
    text.push(b')')?;
    PgText::from_vec(alloc, text)
}

fn row(alloc: Global, none: &[u8], word: &[u8], texts: &[PgText]) -> Result<PgText, NoMemory>
    ensures { IfOk result (λ t. t ≡ conditions.row none.now word.now texts.now) }
{
    match texts.split_first() {
        None => PgText::from_bytes(alloc, none),
        Some((first, others)) => in_a_row(alloc, word, first, others),
    }
}

/// The text of an AND of these.
pub(crate) fn all_text(alloc: Global, texts: &[PgText]) -> Result<PgText, NoMemory>
    ensures { IfOk result (λ t. t ≡ conditions.all_text texts.now) }
{
    row(alloc, b"true", b" AND ", texts)
}

/// The text of an OR of these.
pub(crate) fn any_text(alloc: Global, texts: &[PgText]) -> Result<PgText, NoMemory>
    ensures { IfOk result (λ t. t ≡ conditions.any_text texts.now) }
{
    row(alloc, b"false", b" OR ", texts)
}
