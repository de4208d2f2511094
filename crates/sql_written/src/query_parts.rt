ghost use Rattle.std.specs.Prelude.{◌≡◌, ◌++◌, OnOk, map};
ghost use Rattle.sql_ast.specs.Expressions.{tree, trees};
ghost use Rattle.sql_ast.specs.Queries.{one_column, item_tree, joined_tree, key_tree, maybe_tree, setting};
ghost use Rattle.sql_written.specs.Marks.{text_of};
ghost use Rattle.sql_written.specs.Lists as lists;
ghost use Rattle.sql_written.specs.Queries as shown;

use crate::parts::{Part, write_enclosed_values, write_parts};
use crate::{write_expression, write_name};
use pg_values::{NoMemory, PgText};
use sql_ast::{Assignment, Expr, ExprList, FromItem, NamedTable, SelectItem, SortKey};
use sql_tokens::TokenKind;

fn write_alias(alias: &Option<PgText>, out: &mut Vec<u8>) -> Result<(), NoMemory>
    ensures { OnOk result (out.new.items ≡ out.old.items ++ text_of (shown.alias_marks alias.now)) }
{
    if let Some(alias) = alias {
        out.extend_from_slice(b" AS ")?;
        write_name(alias.as_bytes(), out)?;
    }
    Ok(())
}

/// Appends a table, and its alias.
pub(crate) fn write_table(table: &NamedTable, out: &mut Vec<u8>) -> Result<(), NoMemory>
    ensures { OnOk result (out.new.items ≡ out.old.items ++ text_of (shown.table_marks table.now)) }
{
    write_name(table.name.as_bytes(), out)?;
    write_alias(&table.alias, out)
}

fn write_output(value: &Expr, alias: &Option<PgText>, out: &mut Vec<u8>) -> Result<(), NoMemory>
    ensures { OnOk result (out.new.items ≡ out.old.items ++ text_of (shown.item_marks (one_column (tree value.now, alias.now)))) }
{
    write_expression(*out.allocator(), value, out)?;
    write_alias(alias, out)
}

struct EachItem;

impl Part for EachItem {
    ghost use Rattle.sql_ast.specs.Queries.{Item as OneItem, item_tree};
    ghost use Rattle.sql_written.specs.Queries as shown;

    type Item = SelectItem;

    ghost Tree = { OneItem };

    ghost tree = { item_tree };

    ghost marks = { shown.item_marks };

    fn write(part: &SelectItem, out: &mut Vec<u8>) -> Result<(), NoMemory> {
        match part {
            SelectItem::All => {
                out.push(b'*')?;
                Ok(())
            }
            SelectItem::AllOf(table) => {
                write_name(table.as_bytes(), out)?;
                out.extend_from_slice(b".*")?;
                Ok(())
            }
            SelectItem::Output(value, alias) => write_output(value, alias, out),
        }
    }
}

/// A table of FROM behind another.
fn write_joined(item: &FromItem, out: &mut Vec<u8>) -> Result<(), NoMemory>
    ensures { OnOk result (out.new.items ≡ out.old.items ++ text_of (shown.joined_marks (joined_tree item.now))) }
{
    match &item.on {
        None => {
            out.extend_from_slice(b", ")?;
            write_table(&item.table, out)
        }
        Some(condition) => {
            out.extend_from_slice(b" JOIN ")?;
            write_table(&item.table, out)?;
            out.extend_from_slice(b" ON ")?;
            write_expression(*out.allocator(), condition, out)
        }
    }
}

/// The tables behind the first.
fn write_more_tables(items: &[FromItem], out: &mut Vec<u8>) -> Result<(), NoMemory>
    ensures { OnOk result (out.new.items ≡ out.old.items ++ text_of (shown.more_tables (map joined_tree items.now))) }
{
    for item in items {
        write_joined(item, out)?;
    }
    Ok(())
}

/// Appends FROM and its tables: nothing where there are none.
pub(crate) fn write_from(items: &[FromItem], out: &mut Vec<u8>) -> Result<(), NoMemory>
    ensures { OnOk result (out.new.items ≡ out.old.items ++ text_of (shown.from_marks (map joined_tree items.now))) }
{
    if let [first, rest @ ..] = items {
        out.extend_from_slice(b" FROM ")?;
        write_table(&first.table, out)?;
        write_more_tables(rest, out)?;
    }
    Ok(())
}

/// Appends WHERE and its condition: nothing where there is none.
pub(crate) fn write_where(condition: &Option<Expr>, out: &mut Vec<u8>) -> Result<(), NoMemory>
    ensures { OnOk result (out.new.items ≡ out.old.items ++ text_of (shown.clause TokenKind.Where (maybe_tree condition.now))) }
{
    if let Some(e) = condition {
        out.extend_from_slice(b" WHERE ")?;
        write_expression(*out.allocator(), e, out)?;
    }
    Ok(())
}

/// Appends LIMIT and its expression: nothing where there is none.
pub(crate) fn write_limit(limit: &Option<Expr>, out: &mut Vec<u8>) -> Result<(), NoMemory>
    ensures { OnOk result (out.new.items ≡ out.old.items ++ text_of (shown.clause TokenKind.Limit (maybe_tree limit.now))) }
{
    if let Some(e) = limit {
        out.extend_from_slice(b" LIMIT ")?;
        write_expression(*out.allocator(), e, out)?;
    }
    Ok(())
}

/// Appends OFFSET and its expression: nothing where there is none.
pub(crate) fn write_offset(offset: &Option<Expr>, out: &mut Vec<u8>) -> Result<(), NoMemory>
    ensures { OnOk result (out.new.items ≡ out.old.items ++ text_of (shown.clause TokenKind.Offset (maybe_tree offset.now))) }
{
    if let Some(e) = offset {
        out.extend_from_slice(b" OFFSET ")?;
        write_expression(*out.allocator(), e, out)?;
    }
    Ok(())
}

fn write_direction(descending: bool, out: &mut Vec<u8>) -> Result<(), NoMemory>
    ensures { OnOk result (out.new.items ≡ out.old.items ++ text_of (shown.direction_marks descending)) }
{
    if descending {
        out.extend_from_slice(b" DESC")?;
    }
    Ok(())
}

fn write_nulls(descending: bool, first: bool, out: &mut Vec<u8>) -> Result<(), NoMemory>
    ensures { OnOk result (out.new.items ≡ out.old.items ++ text_of (shown.nulls_marks descending first)) }
{
    if descending && !first {
        out.extend_from_slice(b" NULLS LAST")?;
    }
    if !descending && first {
        out.extend_from_slice(b" NULLS FIRST")?;
    }
    Ok(())
}

struct EachKey;

impl Part for EachKey {
    ghost use Rattle.sql_ast.specs.Queries.{Key as OneKey, key_tree};
    ghost use Rattle.sql_written.specs.Queries as shown;

    type Item = SortKey;

    ghost Tree = { OneKey };

    ghost tree = { key_tree };

    ghost marks = { shown.key_marks };

    fn write(part: &SortKey, out: &mut Vec<u8>) -> Result<(), NoMemory> {
        write_expression(*out.allocator(), &part.value, out)?;
        write_direction(part.descending, out)?;
        write_nulls(part.descending, part.nulls_first, out)
    }
}

/// Appends ORDER BY and its keys: nothing where there are none.
pub(crate) fn write_order(keys: &[SortKey], out: &mut Vec<u8>) -> Result<(), NoMemory>
    ensures { OnOk result (out.new.items ≡ out.old.items ++ text_of (shown.order_marks (map key_tree keys.now))) }
{
    if !keys.is_empty() {
        out.extend_from_slice(b" ORDER BY ")?;
        write_parts::<EachKey>(keys, out)?;
    }
    Ok(())
}

struct EachAssignment;

impl Part for EachAssignment {
    ghost use Rattle.sql_ast.specs.Queries.{Setting as OneSetting, setting};
    ghost use Rattle.sql_written.specs.Queries as shown;

    type Item = Assignment;

    ghost Tree = { OneSetting };

    ghost tree = { setting };

    ghost marks = { shown.setting_marks };

    fn write(part: &Assignment, out: &mut Vec<u8>) -> Result<(), NoMemory> {
        write_name(part.column.as_bytes(), out)?;
        out.extend_from_slice(b" = ")?;
        write_expression(*out.allocator(), &part.value, out)
    }
}

struct EachRow;

impl Part for EachRow {
    ghost use Rattle.sql_ast.specs.Expressions.{Trees as OneRow, trees};
    ghost use Rattle.sql_written.specs.Queries as shown;

    type Item = ExprList;

    ghost Tree = { OneRow };

    ghost tree = { trees };

    ghost marks = { shown.row_marks };

    fn write(part: &ExprList, out: &mut Vec<u8>) -> Result<(), NoMemory> {
        write_enclosed_values(part, out)
    }
}

/// Appends the items of a SELECT.
pub(crate) fn write_items(items: &[SelectItem], out: &mut Vec<u8>) -> Result<(), NoMemory>
    ensures { OnOk result (out.new.items ≡ out.old.items ++ text_of (lists.parts shown.item_marks (map item_tree items.now))) }
{
    write_parts::<EachItem>(items, out)
}

/// Appends the assignments of an UPDATE.
pub(crate) fn write_assignments(
    assignments: &[Assignment],
    out: &mut Vec<u8>,
) -> Result<(), NoMemory>
    ensures { OnOk result (out.new.items ≡ out.old.items ++ text_of (lists.parts shown.setting_marks (map setting assignments.now))) }
{
    write_parts::<EachAssignment>(assignments, out)
}

/// Appends the rows of an INSERT.
pub(crate) fn write_rows(rows: &[ExprList], out: &mut Vec<u8>) -> Result<(), NoMemory>
    ensures { OnOk result (out.new.items ≡ out.old.items ++ text_of (lists.parts shown.row_marks (map trees rows.now))) }
{
    write_parts::<EachRow>(rows, out)
}
