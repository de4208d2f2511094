ghost use Rattle.std.specs.Prelude.{◌≡◌, ◌++◌, ◌∷◌, [], IfOk, OnOk, None, Some, map, replicate};
ghost use Rattle.pg_values.specs.Refusals.{IsAnswer};
ghost use Rattle.expression_binder.specs.Firsts.{or_first, IsAnswerBy};
ghost use Rattle.table_binder.specs.Columns.{type_fault, kind_or_text};
ghost use Rattle.prepared_statements.specs.Prepared as spec;

use pg_values::{Kind, NoMemory, PgText, Refusal};
use refusals::no_type;
use std::alloc::Global;
use table_binder::kind_named;

// ---- the declared types of PREPARE

fn kind_of_type(alloc: Global, name: &[u8]) -> Result<Kind, Refusal>
    ensures { IsAnswer result (or_first (type_fault name.now) (kind_or_text name.now)) }
{
    match kind_named(name) {
        Some(kind) => Ok(kind),
        None => Err(Refusal::Sql(no_type(alloc, name)?)),
    }
}

fn add_kind(kinds: &mut Vec<Kind>, kind: Kind) -> Result<(), NoMemory>
    ensures { OnOk result (kinds.new.items ≡ kinds.old.items ++ kind ∷ []) }
{
    kinds.push(kind)?;
    Ok(())
}

/// The kinds of the types, or 42704 for the first that is none.
pub(crate) fn kinds_of(alloc: Global, types: &[PgText]) -> Result<Vec<Kind>, Refusal>
    ensures { IsAnswerBy (λ v. v.items) result (or_first (spec.types_faults types.now) (map kind_or_text types.now)) }
{
    let mut kinds = Vec::new(alloc);
    for name in types {
        let kind = kind_of_type(alloc, name.as_bytes())?;
        add_kind(&mut kinds, kind)?;
    }
    Ok(kinds)
}

// ---- what EXECUTE knows of them

fn some_kinds(alloc: Global, kinds: &[Kind]) -> Result<Vec<Option<Kind>>, NoMemory>
    ensures { IfOk result (λ v. v.items ≡ map (λ k. Some k) kinds.now) }
{
    let mut declared = Vec::new(alloc);
    for kind in kinds {
        declared.push(Some(*kind))?;
    }
    Ok(declared)
}

fn add_nothing(declared: &mut Vec<Option<Kind>>, n: usize) -> Result<(), NoMemory>
    ensures { OnOk result (declared.new.items ≡ declared.old.items ++ replicate n None) }
{
    for _ in 0..n {
        declared.push(None)?;
    }
    Ok(())
}

/// What is declared of that many parameters.
pub(crate) fn declared_of(
    alloc: Global,
    kinds: &[Kind],
    count: usize,
) -> Result<Vec<Option<Kind>>, NoMemory>
    ensures { IfOk result (λ v. v.items ≡ spec.declared_of kinds.now count) }
{
    let mut declared = some_kinds(alloc, kinds)?;
    add_nothing(&mut declared, count.saturating_sub(kinds.len()))?;
    Ok(declared)
}
