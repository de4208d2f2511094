ghost use Rattle.std.specs.Prelude.{◌≡◌, ◌++◌, [], OnOk};
ghost use Rattle.sql_ast.specs.Commands as trees_of;
ghost use Rattle.sql_ast.specs.Commands.{bound_tree, command_tree, edges_of};
ghost use Rattle.sql_ast.specs.Expressions.{tree};
ghost use Rattle.sql_written.specs.Marks.{bytes_of, text_of};
ghost use Rattle.sql_written.specs.Commands as shown;
ghost use Rattle.sql_written.specs.Lists.{enclosed, parts};

use crate::parts::{
    Part, write_enclosed, write_enclosed_names, write_enclosed_values, write_names, write_parts,
};
use crate::words::{write_edge_name, write_setting_name};
use crate::{write_expression, write_name, write_number, write_quoted};
use pg_values::{Isolation, LockMode, NoMemory, Strategy};
use sql_ast::{
    BoundText, ColumnDefinition, Command, Detachment, EdgeList, EdgeText, Expr, Leaf, LockedTable,
    NameList, Partitioning, SettingValue,
};

fn write_isolation(level: Option<Isolation>, out: &mut Vec<u8>) -> Result<(), NoMemory>
    ensures { OnOk result (out.new.items ≡ out.old.items ++ text_of (shown.isolation_marks level)) }
{
    match level {
        None => {}
        Some(Isolation::ReadCommitted) => {
            out.extend_from_slice(b" ISOLATION LEVEL READ COMMITTED")?;
        }
        Some(Isolation::ReadUncommitted) => {
            out.extend_from_slice(b" ISOLATION LEVEL READ UNCOMMITTED")?;
        }
        Some(Isolation::RepeatableRead) => {
            out.extend_from_slice(b" ISOLATION LEVEL REPEATABLE READ")?;
        }
    }
    Ok(())
}

/// ON, TRUE and FALSE are no names, so only these words say them without quotes.
fn write_setting_word(word: &[u8], out: &mut Vec<u8>) -> Result<(), NoMemory>
    ensures { OnOk result (out.new.items ≡ out.old.items ++ bytes_of (shown.setting_word word.now)) }
{
    if word == b"on".as_slice() {
        out.extend_from_slice(b"ON")?;
        return Ok(());
    }
    if word == b"true".as_slice() {
        out.extend_from_slice(b"TRUE")?;
        return Ok(());
    }
    if word == b"false".as_slice() {
        out.extend_from_slice(b"FALSE")?;
        return Ok(());
    }
    write_name(word, out)
}

fn write_setting(value: &SettingValue, out: &mut Vec<u8>) -> Result<(), NoMemory>
    ensures { OnOk result (out.new.items ≡ out.old.items ++ text_of (shown.setting_marks value.now)) }
{
    match value {
        SettingValue::Word(word) => write_setting_word(word.as_bytes(), out),
        SettingValue::Text(text) => write_quoted(b'\'', text.as_bytes(), out),
        SettingValue::Number(digits) => {
            out.extend_from_slice(digits.as_bytes())?;
            Ok(())
        }
    }
}

fn write_strategy(strategy: Strategy, out: &mut Vec<u8>) -> Result<(), NoMemory>
    ensures { OnOk result (out.new.items ≡ out.old.items ++ bytes_of (shown.strategy_word strategy)) }
{
    let word: &[u8] = match strategy {
        Strategy::Range => b"RANGE",
        Strategy::List => b"LIST",
        Strategy::Hash => b"HASH",
    };
    out.extend_from_slice(word)?;
    Ok(())
}

fn write_by(by: &Option<Partitioning>, out: &mut Vec<u8>) -> Result<(), NoMemory>
    ensures { OnOk result (out.new.items ≡ out.old.items ++ text_of (shown.maybe_by by.now)) }
{
    if let Some(by) = by {
        out.extend_from_slice(b" PARTITION BY ")?;
        write_strategy(by.strategy, out)?;
        out.push(b' ')?;
        write_enclosed_names(by.columns.as_slice(), out)?;
    }
    Ok(())
}

fn write_null(not_null: bool, out: &mut Vec<u8>) -> Result<(), NoMemory>
    ensures { OnOk result (out.new.items ≡ out.old.items ++ text_of (shown.null_marks not_null)) }
{
    if not_null {
        out.extend_from_slice(b" NOT NULL")?;
    }
    Ok(())
}

struct EachColumn;

impl Part for EachColumn {
    ghost use Rattle.sql_ast.specs.declared.table_definition.ColumnDefinition.{ColumnDefinition as OneColumn};
    ghost use Rattle.sql_written.specs.Commands as shown;

    type Item = ColumnDefinition;

    ghost Tree = { OneColumn };

    ghost tree = { λ column. column };

    ghost marks = { shown.column_marks };

    fn write(part: &ColumnDefinition, out: &mut Vec<u8>) -> Result<(), NoMemory> {
        write_name(part.name.as_bytes(), out)?;
        out.push(b' ')?;
        write_name(part.kind.as_bytes(), out)?;
        write_null(part.not_null, out)
    }
}

/// Columns in parentheses.
fn write_columns(columns: &[ColumnDefinition], out: &mut Vec<u8>) -> Result<(), NoMemory>
    ensures { OnOk result (out.new.items ≡ out.old.items ++ text_of (enclosed (parts shown.column_marks columns.now))) }
{
    write_enclosed::<EachColumn>(columns, out)
}

fn write_value(value: &Expr, out: &mut Vec<u8>) -> Result<(), NoMemory>
    ensures { OnOk result (out.new.items ≡ out.old.items ++ text_of (shown.value_marks (tree value.now))) }
{
    if let Expr::Leaf(Leaf::Column(name)) = value {
        return write_edge_name(name.as_bytes(), out);
    }
    write_expression(*out.allocator(), value, out)
}

struct EachEdge;

impl Part for EachEdge {
    ghost use Rattle.sql_ast.specs.Commands.{Edge as OneEdge, edge_tree};
    ghost use Rattle.sql_written.specs.Commands as shown;

    type Item = EdgeText;

    ghost Tree = { OneEdge };

    ghost tree = { edge_tree };

    ghost marks = { shown.edge_marks };

    fn write(part: &EdgeText, out: &mut Vec<u8>) -> Result<(), NoMemory> {
        match part {
            EdgeText::MinValue => {
                out.extend_from_slice(b"MINVALUE")?;
                Ok(())
            }
            EdgeText::MaxValue => {
                out.extend_from_slice(b"MAXVALUE")?;
                Ok(())
            }
            EdgeText::Value(value) => write_value(value, out),
        }
    }
}

fn write_edges(edges: &EdgeList, out: &mut Vec<u8>) -> Result<(), NoMemory>
    ensures { OnOk result (out.new.items ≡ out.old.items ++ text_of (shown.edges (edges_of edges.now))) }
{
    write_enclosed::<EachEdge>(edges.as_slice(), out)
}

fn write_hash(modulus: u64, remainder: u64, out: &mut Vec<u8>) -> Result<(), NoMemory>
    ensures { OnOk result (out.new.items ≡ out.old.items ++ text_of (shown.hash_marks modulus remainder)) }
{
    out.extend_from_slice(b"(MODULUS ")?;
    write_number(modulus, out)?;
    out.extend_from_slice(b", REMAINDER ")?;
    write_number(remainder, out)?;
    out.push(b')')?;
    Ok(())
}

fn write_range(from: &EdgeList, to: &EdgeList, out: &mut Vec<u8>) -> Result<(), NoMemory>
    ensures { OnOk result (out.new.items ≡ out.old.items ++ text_of (shown.bound_marks (trees_of.range (edges_of from.now) (edges_of to.now)))) }
{
    out.extend_from_slice(b"FOR VALUES FROM ")?;
    write_edges(from, out)?;
    out.extend_from_slice(b" TO ")?;
    write_edges(to, out)
}

fn write_bound(bound: &BoundText, out: &mut Vec<u8>) -> Result<(), NoMemory>
    ensures { OnOk result (out.new.items ≡ out.old.items ++ text_of (shown.bound_marks (bound_tree bound.now))) }
{
    match bound {
        BoundText::Range(from, to) => write_range(from, to, out),
        BoundText::List(list) => {
            out.extend_from_slice(b"FOR VALUES IN ")?;
            write_enclosed_values(list, out)
        }
        BoundText::Hash(modulus, remainder) => {
            out.extend_from_slice(b"FOR VALUES WITH ")?;
            write_hash(*modulus, *remainder, out)
        }
        BoundText::Default => {
            out.extend_from_slice(b"DEFAULT")?;
            Ok(())
        }
    }
}

fn write_detachment(how: Detachment, out: &mut Vec<u8>) -> Result<(), NoMemory>
    ensures { OnOk result (out.new.items ≡ out.old.items ++ text_of (shown.detachment_marks how)) }
{
    let word: &[u8] = match how {
        Detachment::AtOnce => b"",
        Detachment::Concurrently => b" CONCURRENTLY",
        Detachment::Finalize => b" FINALIZE",
    };
    out.extend_from_slice(word)?;
    Ok(())
}

struct EachLocked;

impl Part for EachLocked {
    ghost use Rattle.sql_ast.specs.declared.locked_table.LockedTable.{LockedTable as OneTable};
    ghost use Rattle.sql_written.specs.Commands as shown;

    type Item = LockedTable;

    ghost Tree = { OneTable };

    ghost tree = { λ table. table };

    ghost marks = { shown.locked_marks };

    fn write(part: &LockedTable, out: &mut Vec<u8>) -> Result<(), NoMemory> {
        if part.only {
            out.extend_from_slice(b"ONLY ")?;
        }
        write_name(part.name.as_bytes(), out)
    }
}

fn write_locked(tables: &[LockedTable], out: &mut Vec<u8>) -> Result<(), NoMemory>
    ensures { OnOk result (out.new.items ≡ out.old.items ++ text_of (parts shown.locked_marks tables.now)) }
{
    write_parts::<EachLocked>(tables, out)
}

fn write_mode(mode: LockMode, out: &mut Vec<u8>) -> Result<(), NoMemory>
    ensures { OnOk result (out.new.items ≡ out.old.items ++ text_of (shown.mode_marks mode)) }
{
    match mode {
        LockMode::AccessShare => out.extend_from_slice(b" IN ACCESS SHARE MODE")?,
        LockMode::RowShare => out.extend_from_slice(b" IN ROW SHARE MODE")?,
        LockMode::RowExclusive => out.extend_from_slice(b" IN ROW EXCLUSIVE MODE")?,
        LockMode::ShareUpdateExclusive => {
            out.extend_from_slice(b" IN SHARE UPDATE EXCLUSIVE MODE")?;
        }
        LockMode::Share => out.extend_from_slice(b" IN SHARE MODE")?,
        LockMode::ShareRowExclusive => out.extend_from_slice(b" IN SHARE ROW EXCLUSIVE MODE")?,
        LockMode::Exclusive => out.extend_from_slice(b" IN EXCLUSIVE MODE")?,
        LockMode::AccessExclusive => {}
    }
    Ok(())
}

fn write_set(name: &[u8], value: &SettingValue, out: &mut Vec<u8>) -> Result<(), NoMemory>
    ensures { OnOk result (out.new.items ≡ out.old.items ++ text_of (shown.command_marks (trees_of.sets name.now value.now))) }
{
    out.extend_from_slice(b"SET ")?;
    write_setting_name(name, out)?;
    out.extend_from_slice(b" TO ")?;
    write_setting(value, out)
}

fn write_create(
    name: &[u8],
    columns: &[ColumnDefinition],
    by: &Option<Partitioning>,
    out: &mut Vec<u8>,
) -> Result<(), NoMemory>
    ensures { OnOk result (out.new.items ≡ out.old.items ++ text_of (shown.command_marks (trees_of.makes_table name.now columns.now by.now))) }
{
    out.extend_from_slice(b"CREATE TABLE ")?;
    write_name(name, out)?;
    out.push(b' ')?;
    write_columns(columns, out)?;
    write_by(by, out)
}

fn write_partition(
    name: &[u8],
    parent: &[u8],
    bound: &BoundText,
    by: &Option<Partitioning>,
    out: &mut Vec<u8>,
) -> Result<(), NoMemory>
    ensures { OnOk result (out.new.items ≡ out.old.items ++ text_of (shown.command_marks (trees_of.makes_partition name.now parent.now (bound_tree bound.now) by.now))) }
{
    out.extend_from_slice(b"CREATE TABLE ")?;
    write_name(name, out)?;
    out.extend_from_slice(b" PARTITION OF ")?;
    write_name(parent, out)?;
    out.push(b' ')?;
    write_bound(bound, out)?;
    write_by(by, out)
}

fn write_exists(if_there: bool, out: &mut Vec<u8>) -> Result<(), NoMemory>
    ensures { OnOk result (out.new.items ≡ out.old.items ++ text_of (shown.exists_marks if_there [])) }
{
    if if_there {
        out.extend_from_slice(b"IF EXISTS ")?;
    }
    Ok(())
}

fn write_drop(if_there: bool, names: &NameList, out: &mut Vec<u8>) -> Result<(), NoMemory>
    ensures { OnOk result (out.new.items ≡ out.old.items ++ text_of (shown.command_marks (trees_of.drops if_there names.now))) }
{
    out.extend_from_slice(b"DROP TABLE ")?;
    write_exists(if_there, out)?;
    write_names(names.as_slice(), out)
}

fn write_attach(
    parent: &[u8],
    name: &[u8],
    bound: &BoundText,
    out: &mut Vec<u8>,
) -> Result<(), NoMemory>
    ensures { OnOk result (out.new.items ≡ out.old.items ++ text_of (shown.command_marks (trees_of.attaches parent.now name.now (bound_tree bound.now)))) }
{
    out.extend_from_slice(b"ALTER TABLE ")?;
    write_name(parent, out)?;
    out.extend_from_slice(b" ATTACH PARTITION ")?;
    write_name(name, out)?;
    out.push(b' ')?;
    write_bound(bound, out)
}

fn write_detach(
    parent: &[u8],
    name: &[u8],
    how: Detachment,
    out: &mut Vec<u8>,
) -> Result<(), NoMemory>
    ensures { OnOk result (out.new.items ≡ out.old.items ++ text_of (shown.command_marks (trees_of.detaches parent.now name.now how))) }
{
    out.extend_from_slice(b"ALTER TABLE ")?;
    write_name(parent, out)?;
    out.extend_from_slice(b" DETACH PARTITION ")?;
    write_name(name, out)?;
    write_detachment(how, out)
}

fn write_lock(tables: &[LockedTable], mode: LockMode, out: &mut Vec<u8>) -> Result<(), NoMemory>
    ensures { OnOk result (out.new.items ≡ out.old.items ++ text_of (shown.command_marks (trees_of.locks tables.now mode))) }
{
    out.extend_from_slice(b"LOCK TABLE ")?;
    write_locked(tables, out)?;
    write_mode(mode, out)
}

/// Appends a command: where memory runs out, a part of it may be there.
pub(crate) fn write_command(command: &Command, out: &mut Vec<u8>) -> Result<(), NoMemory>
    ensures { OnOk result (out.new.items ≡ out.old.items ++ text_of (shown.command_marks (command_tree command.now))) }
{
    match command {
        Command::Begin(level) => {
            out.extend_from_slice(b"BEGIN")?;
            write_isolation(*level, out)
        }
        Command::Commit => {
            out.extend_from_slice(b"COMMIT")?;
            Ok(())
        }
        Command::Rollback => {
            out.extend_from_slice(b"ROLLBACK")?;
            Ok(())
        }
        Command::Set(name, value) => write_set(name.as_bytes(), value, out),
        Command::Reset(name) => {
            out.extend_from_slice(b"RESET ")?;
            write_name(name.as_bytes(), out)
        }
        Command::CreateTable(name, columns, by) => {
            write_create(name.as_bytes(), columns.as_slice(), by, out)
        }
        Command::CreatePartition(name, parent, bound, by) => {
            write_partition(name.as_bytes(), parent.as_bytes(), bound, by, out)
        }
        Command::DropTables(if_there, names) => write_drop(*if_there, names, out),
        Command::Attach(parent, name, bound) => {
            write_attach(parent.as_bytes(), name.as_bytes(), bound, out)
        }
        Command::Detach(parent, name, how) => {
            write_detach(parent.as_bytes(), name.as_bytes(), *how, out)
        }
        Command::Lock(tables, mode) => write_lock(tables.as_slice(), *mode, out),
        Command::Deallocate(name) => {
            out.extend_from_slice(b"DEALLOCATE ")?;
            write_name(name.as_bytes(), out)
        }
        Command::DeallocateAll => {
            out.extend_from_slice(b"DEALLOCATE ALL")?;
            Ok(())
        }
    }
}
