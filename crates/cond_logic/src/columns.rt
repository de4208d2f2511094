ghost use Rattle.std.specs.Prelude.{◌≡◌, [], IfOk, OnOk, OnErr};
ghost use Rattle.std.specs.List.{list_any};
ghost use Rattle.cond_logic.specs.Trees.{cond_tree};
ghost use Rattle.cond_logic.specs.Columns.{columns_of, operand_columns, is_column, once_more, with_new};

use crate::{ColumnId, Cond, Operand};
use pg_values::NoMemory;
use std::alloc::Global;

fn has(found: &[ColumnId], column: ColumnId) -> bool
    ensures { result ≡ list_any (is_column column) found.now }
{
    found.iter().any(|other| column.item == other.item && column.position == other.position)
}

fn add(found: &mut Vec<ColumnId>, column: ColumnId) -> Result<(), NoMemory>
    ensures { OnOk result (found.new.items ≡ once_more found.old.items column) }
{
    if !has(found, column) {
        found.push(column)?;
    }
    Ok(())
}

fn add_operand(found: &mut Vec<ColumnId>, operand: &Operand) -> Result<(), NoMemory>
    ensures { OnOk result (found.new.items ≡ with_new found.old.items (operand_columns operand.now)) }
{
    match operand {
        Operand::Column(column) => add(found, *column),
        Operand::Lit(_) => Ok(()),
        Operand::Param(_) => Ok(()),
    }
}

fn add_columns(found: &mut Vec<ColumnId>, cond: &Cond) -> Result<(), NoMemory>
    ensures { OnOk result (found.new.items ≡ with_new found.old.items (columns_of (cond_tree cond.now))) }
{
    match cond {
        Cond::And(list) => {
            for part in &list.conds {
                add_columns(found, part)?;
            }
            Ok(())
        }
        Cond::Or(list) => {
            for choice in &list.conds {
                add_columns(found, choice)?;
            }
            Ok(())
        }
        Cond::Not(inner) => add_columns(found, inner),
        Cond::Compare(_, x, y) => {
            add_operand(found, x)?;
            add_operand(found, y)
        }
        Cond::IsNull(x) => add_operand(found, x),
        Cond::Const(_) => Ok(()),
    }
}

/// The columns of a condition, each once, in the order in which they first stand there. Fails only for
/// want of memory.
pub fn columns_used(alloc: Global, cond: &Cond) -> Result<Vec<ColumnId>, NoMemory>
    ensures { IfOk result (λ found. found.items ≡ with_new [] (columns_of (cond_tree cond.now))) }
{
    let mut found = Vec::new(alloc);
    add_columns(&mut found, cond)?;
    Ok(found)
}
