//! Conditions: the texts of their conjuncts and choices.

ghost use Rattle.std.specs.Prelude.{◌≡◌, ◌++◌, ◌∷◌, [], OnOk, IfOk, map, codes};
ghost use Rattle.cond_logic.specs.Trees.{cond_tree, listed};
ghost use Rattle.plan_text.specs.Conditions as spec;

use crate::NamedItem;
use crate::comparisons::{comparison, is_not_null, is_null};
use crate::rows::{all_text, any_text};
use cond_logic::{Cond, Truth3};
use pg_values::{NoMemory, PgText};
use std::alloc::Global;

fn push(text: PgText, out: &mut Vec<PgText>) -> Result<(), NoMemory>
    ensures { OnOk result (out.new.items ≡ out.old.items ++ text ∷ []) }
{
    out.push(text)?;
    Ok(())
}

fn truth(alloc: Global, known: Truth3) -> Result<PgText, NoMemory>
    ensures { IfOk result (λ t. t ≡ spec.truth known) }
{
    match known {
        Truth3::Yes => PgText::from_bytes(alloc, b"true"),
        Truth3::No => PgText::from_bytes(alloc, b"false"),
        Truth3::Unknown => PgText::from_bytes(alloc, b"NULL"),
    }
}

fn not_text(alloc: Global, inside: &PgText) -> Result<PgText, NoMemory>
    ensures { IfOk result (λ t. t ≡ codes "(NOT " ++ inside.now ++ codes ")") }
{
    let mut text = Vec::new(alloc);
    text.extend_from_slice(b"(NOT ")?;
    text.extend_from_slice(inside.as_bytes())?;
    text.push(b')')?;
    PgText::from_vec(alloc, text)
}

// A NOT over this condition, whose own text is told.
fn negated(
    alloc: Global,
    items: &[NamedItem],
    cond: &Cond,
    inside: &PgText,
) -> Result<PgText, NoMemory>
    ensures { IfOk result (λ t. t ≡ spec.negated items.now (cond_tree cond.now) inside.now) }
{
    match cond {
        Cond::IsNull(x) => is_not_null(alloc, items, x),
        Cond::And(_) => not_text(alloc, inside),
        Cond::Or(_) => not_text(alloc, inside),
        Cond::Not(_) => not_text(alloc, inside),
        Cond::Compare(_, _, _) => not_text(alloc, inside),
        Cond::Const(_) => not_text(alloc, inside),
    }
}

#[cycle(telling)]
fn push_all(
    alloc: Global,
    items: &[NamedItem],
    parts: &[Cond],
    out: &mut Vec<PgText>,
) -> Result<(), NoMemory>
    ensures { OnOk result (out.new.items ≡ out.old.items ++ spec.all_conjuncts items.now (listed (map cond_tree parts.now))) }
{
    for part in parts {
        push_conjuncts(alloc, items, part, out)?;
    }
    Ok(())
}

#[cycle(telling)]
fn whole(alloc: Global, items: &[NamedItem], cond: &Cond) -> Result<PgText, NoMemory>
    ensures { IfOk result (λ t. t ≡ spec.condition items.now (cond_tree cond.now)) }
{
    let mut texts = Vec::new(alloc);
    push_conjuncts(alloc, items, cond, &mut texts)?;
    all_text(alloc, &texts)
}

#[cycle(telling)]
fn push_choices(
    alloc: Global,
    items: &[NamedItem],
    parts: &[Cond],
    out: &mut Vec<PgText>,
) -> Result<(), NoMemory>
    ensures { OnOk result (out.new.items ≡ out.old.items ++ spec.choices items.now (listed (map cond_tree parts.now))) }
{
    for part in parts {
        out.push(whole(alloc, items, part)?)?;
    }
    Ok(())
}

#[cycle(telling)]
fn either(alloc: Global, items: &[NamedItem], parts: &[Cond]) -> Result<PgText, NoMemory>
    ensures { IfOk result (λ t. t ≡ spec.any_text (spec.choices items.now (listed (map cond_tree parts.now)))) }
{
    let mut texts = Vec::new(alloc);
    push_choices(alloc, items, parts, &mut texts)?;
    any_text(alloc, &texts)
}

#[cycle(telling)]
fn inverted(alloc: Global, items: &[NamedItem], cond: &Cond) -> Result<PgText, NoMemory>
    ensures { IfOk result (λ t. t ≡ spec.negated items.now (cond_tree cond.now) (spec.condition items.now (cond_tree cond.now))) }
{
    let inside = whole(alloc, items, cond)?;
    negated(alloc, items, cond, &inside)
}

/// Appends the texts of the conjuncts of a condition.
#[cycle(telling)]
pub(crate) fn push_conjuncts(
    alloc: Global,
    items: &[NamedItem],
    cond: &Cond,
    out: &mut Vec<PgText>,
) -> Result<(), NoMemory>
    ensures { OnOk result (out.new.items ≡ out.old.items ++ spec.conjuncts items.now (cond_tree cond.now)) }
{
    match cond {
        Cond::And(list) => push_all(alloc, items, list.as_slice(), out),
        Cond::Or(list) => push(either(alloc, items, list.as_slice())?, out),
        Cond::Not(inner) => push(inverted(alloc, items, inner)?, out),
        Cond::Compare(op, x, y) => push(comparison(alloc, items, *op, x, y)?, out),
        Cond::IsNull(x) => push(is_null(alloc, items, x)?, out),
        Cond::Const(known) => push(truth(alloc, *known)?, out),
    }
}
