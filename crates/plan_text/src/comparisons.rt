//! Comparisons and tests of null.

ghost use Rattle.std.specs.Prelude.{◌≡◌, ◌++◌, IfOk, codes};
ghost use Rattle.prune_steps.specs.Atoms as atoms;
ghost use Rattle.plan_text.specs.Conditions as conditions;

use crate::NamedItem;
use crate::operands::write_operand;
use cond_logic::{CompareOp, Operand};
use pg_values::{NoMemory, PgText};
use std::alloc::Global;

fn sign(op: CompareOp) -> &'static [u8]
    ensures { result.now ≡ conditions.sign op }
{
    match op {
        CompareOp::Eq => b"=",
        CompareOp::Ne => b"<>",
        CompareOp::Lt => b"<",
        CompareOp::Le => b"<=",
        CompareOp::Gt => b">",
        CompareOp::Ge => b">=",
    }
}

// The operator that says the same with its sides exchanged.
fn turned(op: CompareOp) -> CompareOp
    ensures { result ≡ atoms.turned op }
{
    match op {
        CompareOp::Eq => CompareOp::Eq,
        CompareOp::Ne => CompareOp::Ne,
        CompareOp::Lt => CompareOp::Gt,
        CompareOp::Le => CompareOp::Ge,
        CompareOp::Gt => CompareOp::Lt,
        CompareOp::Ge => CompareOp::Le,
    }
}

fn is_column(operand: &Operand) -> bool
    ensures { result ≡ conditions.is_column operand.now }
{
    match operand {
        Operand::Column(_) => true,
        Operand::Lit(_) => false,
        Operand::Param(_) => false,
    }
}

fn as_written(
    alloc: Global,
    items: &[NamedItem],
    op: CompareOp,
    x: &Operand,
    y: &Operand,
) -> Result<PgText, NoMemory>
    ensures { IfOk result (λ t. t ≡ conditions.as_written items.now op x.now y.now) }
{
    let mut text = Vec::new(alloc);
    text.push(b'(')?;
    write_operand(alloc, items, x, &mut text)?;
    text.push(b' ')?;
    text.extend_from_slice(sign(op))?;
    text.push(b' ')?;
    write_operand(alloc, items, y, &mut text)?;
    text.push(b')')?;
    PgText::from_vec(alloc, text)
}

/// The text of a comparison: turned round where its right side alone is a column.
pub(crate) fn comparison(
    alloc: Global,
    items: &[NamedItem],
    op: CompareOp,
    x: &Operand,
    y: &Operand,
) -> Result<PgText, NoMemory>
    ensures { IfOk result (λ t. t ≡ conditions.comparison items.now op x.now y.now) }
{
    if !is_column(x) && is_column(y) {
        as_written(alloc, items, turned(op), y, x)
    } else {
        as_written(alloc, items, op, x, y)
    }
}

fn tested(alloc: Global, items: &[NamedItem], x: &Operand, test: &[u8]) -> Result<PgText, NoMemory>
    ensures { IfOk result (λ t. t ≡ codes "(" ++ conditions.operand items.now x.now ++ test.now) }
{
    let mut text = Vec::new(alloc);
    text.push(b'(')?;
    write_operand(alloc, items, x, &mut text)?;
    text.extend_from_slice(test)?;
    PgText::from_vec(alloc, text)
}

pub(crate) fn is_null(alloc: Global, items: &[NamedItem], x: &Operand) -> Result<PgText, NoMemory>
    ensures { IfOk result (λ t. t ≡ conditions.is_null items.now x.now) }
{
    tested(alloc, items, x, b" IS NULL)")
}

pub(crate) fn is_not_null(
    alloc: Global,
    items: &[NamedItem],
    x: &Operand,
) -> Result<PgText, NoMemory>
    ensures { IfOk result (λ t. t ≡ conditions.is_not_null items.now x.now) }
{
    tested(alloc, items, x, b" IS NOT NULL)")
}
