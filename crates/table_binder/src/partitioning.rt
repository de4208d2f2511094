ghost use Rattle.std.specs.Prelude.{◌≡◌, ◌++◌, ◌∷◌, [], All, not, if◌then◌else◌, map, nat_le, length, position, unwrap_or, OnOk, IfOk};
ghost use Rattle.std.specs.List.{list_any};
ghost use Rattle.std.specs.Str.{bytes_eq};
ghost use Rattle.pg_values.specs.declared.which.Which.TheVariants.{KeyColumns as WhichKeyColumns};
ghost use Rattle.pg_values.specs.Refusals.{IsAnswer};
ghost use Rattle.refusals.specs.Refusals as refusals;
ghost use Rattle.history.specs.Places.{LiesIn};
ghost use Rattle.expression_binder.specs.Firsts.{or_first, unless, IsAnswerBy};
ghost use Rattle.table_binder.specs.Names as names_spec;
ghost use Rattle.table_binder.specs.Partitionings as spec;

use bound_forms::{KeyColumn, KeyColumns, Level};
use history::Column;
use indexmap::IndexSet;
use pg_values::{NoMemory, PgText, Refusal, Strategy, Which};
use refusals::{no_column, takes_one_column, too_many, twice_in_key};
use sql_ast::Partitioning;
use std::alloc::Global;

fn check_one_if_list(alloc: Global, strategy: Strategy, count: usize) -> Result<(), Refusal>
    ensures { IsAnswer result (or_first (spec.count_faults strategy count) tt) }
{
    match strategy {
        Strategy::Range => Ok(()),
        Strategy::List => {
            if count == 1 {
                return Ok(());
            }
            Err(Refusal::Sql(takes_one_column(alloc, b"LIST")?))
        }
        Strategy::Hash => Ok(()),
    }
}

// Notes the name, and says whether it is a new one.
fn note<'n>(earlier: &mut IndexSet<&'n [u8]>, name: &'n [u8]) -> Result<bool, NoMemory>
    ensures new { IfOk result (λ is_new. is_new ≡ not (list_any (bytes_eq name.now) (names_spec.bytes_of earlier.old.keys))) }
    ensures noted { IfOk result (λ is_new. names_spec.bytes_of earlier.new.keys ≡ (if is_new then names_spec.bytes_of earlier.old.keys ++ name.now ∷ [] else names_spec.bytes_of earlier.old.keys)) }
{
    let is_new = earlier.insert(name)?;
    Ok(is_new)
}

fn check_once<'n>(
    alloc: Global,
    earlier: &mut IndexSet<&'n [u8]>,
    name: &'n [u8],
) -> Result<(), Refusal>
    ensures answer { IsAnswer result (or_first (names_spec.once_faults refusals.twice_in_key (names_spec.bytes_of earlier.old.keys) name.now) tt) }
    ensures noted { OnOk result (names_spec.bytes_of earlier.new.keys ≡ names_spec.bytes_of earlier.old.keys ++ name.now ∷ []) }
{
    if note(earlier, name)? {
        return Ok(());
    }
    Err(Refusal::Sql(twice_in_key(alloc, name)?))
}

// No column stands in the key twice.
fn check_names(alloc: Global, names: &[PgText]) -> Result<(), Refusal>
    ensures { IsAnswer result (or_first (names_spec.twice_faults refusals.twice_in_key [] names.now) tt) }
{
    let mut earlier = IndexSet::new(alloc);
    for name in names {
        check_once(alloc, &mut earlier, name.as_bytes())?;
    }
    Ok(())
}

fn check_few(alloc: Global, count: usize) -> Result<(), Refusal>
    ensures { IsAnswer result (or_first (unless (nat_le count 8) (refusals.too_many WhichKeyColumns)) tt) }
{
    if count <= 8 {
        return Ok(());
    }
    Err(Refusal::Sql(too_many(alloc, Which::KeyColumns)?))
}

fn check_key(alloc: Global, strategy: Strategy, names: &[PgText]) -> Result<(), Refusal>
    ensures { IsAnswer result (or_first (spec.form_faults strategy names.now) tt) }
{
    check_one_if_list(alloc, strategy, names.len())?;
    check_names(alloc, names)?;
    check_few(alloc, names.len())
}

fn place_of(columns: &[Column], name: &[u8]) -> Option<usize>
    ensures { result ≡ spec.place_of columns.now name.now }
{
    columns.iter().position(|c| c.name.as_bytes() == name)
}

// The column of that name as a key column.
fn key_column(alloc: Global, columns: &[Column], name: &[u8]) -> Result<KeyColumn, Refusal>
    ensures answer { IsAnswer result (or_first (spec.missing_fault columns.now name.now) (spec.key_column columns.now name.now)) }
    ensures lies { IfOk result (λ c. LiesIn columns.now c) }
{
    match place_of(columns, name) {
        Some(position) => Ok(KeyColumn {
            position,
            kind: columns[position].kind,
        }),
        None => Err(Refusal::Sql(no_column(alloc, name)?)),
    }
}

fn add(columns: &mut KeyColumns, column: KeyColumn) -> Result<(), NoMemory>
    ensures { OnOk result (columns.new ≡ columns.old ++ column ∷ []) }
{
    columns.push(column)?;
    Ok(())
}

// The key columns by their places.
fn key_columns(alloc: Global, columns: &[Column], names: &[PgText]) -> Result<KeyColumns, Refusal>
    ensures answer { IsAnswer result (or_first (spec.missing_faults columns.now names.now) (map (spec.key_column columns.now) names.now)) }
    ensures lie { IfOk result (λ key. All (LiesIn columns.now) key) }
{
    let mut key = KeyColumns::new(alloc);
    for name in names {
        let column = key_column(alloc, columns, name.as_bytes())?;
        add(&mut key, column)?;
    }
    Ok(key)
}

/// The strategy and the key columns of a table that is partitioned, for a table with the columns; or the
/// first fault: 42P16 for LIST with other than one column or a column that stands in the key twice, 54000
/// for more than 8, 42703 for a column that the table does not have.
pub fn bind_partitioning(
    alloc: Global,
    by: &Partitioning,
    columns: &[Column],
) -> Result<Level, Refusal>
    ensures answer { IsAnswerBy spec.key_of result (spec.bound_key columns.now by.now) }
    ensures lie { IfOk result (λ level. All (LiesIn columns.now) level.columns) }
{
    let strategy = by.strategy;
    let names = by.columns.as_slice();
    check_key(alloc, strategy, names)?;
    let columns = key_columns(alloc, columns, names)?;
    Ok(Level { strategy, columns })
}
