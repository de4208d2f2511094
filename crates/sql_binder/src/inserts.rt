ghost use Rattle.std.specs.Prelude.{◌≡◌, ◌++◌, ◌∷◌, [], map, length, position, IfOk, OnOk};
ghost use Rattle.std.specs.List.{list_any};
ghost use Rattle.std.specs.Str.{bytes_eq};
ghost use Rattle.pg_values.specs.Refusals.{IsAnswer};
ghost use Rattle.sql_ast.specs.Expressions.{tree, trees, listed};
ghost use Rattle.expression_binder.specs.Firsts.{or_first, IsAnswerBy};
ghost use Rattle.expression_binder.specs.Kinds as kinds_spec;
ghost use Rattle.expression_binder.specs.Operands.{operand_faults, typed};
ghost use Rattle.sql_binder.specs.Inserts as inserts;
ghost use Rattle.sql_binder.specs.Inserts.{bound_insert};
ghost use Rattle.cond_logic.specs.Asked.{insert_meant};

use crate::plain::{is_plain, plain_value};
use cond_logic::InsertAsk;
use expression_binder::{
    Names, Param, ScopeColumn, bind_constant, check_assigned, check_count, check_operand,
    condition_names, store, typed_of,
};
use pg_values::{Kind, ListOf, NoMemory, PgText, Refusal, Row, Value};
use refusals::{no_column, set_twice};
use sql_ast::{Expr, ExprList, Insert, NameList};
use std::alloc::Global;

// ---- columns

fn place_of(columns: &[ScopeColumn], name: &[u8]) -> Option<usize>
    ensures { result ≡ inserts.place_of columns.now name.now }
{
    columns.iter().position(|c| c.name.as_bytes() == name)
}

/// The place of a column that is there.
pub(crate) fn place_in(columns: &[ScopeColumn], name: &[u8]) -> usize
    ensures { result ≡ inserts.place_or (inserts.place_of columns.now name.now) }
{
    match place_of(columns, name) {
        None => 0,
        Some(place) => place,
    }
}

/// The kind of the column at a place.
pub(crate) fn kind_at(columns: &[ScopeColumn], place: usize) -> Kind
    ensures { result ≡ inserts.kind_at columns.now place }
{
    match columns.get(place) {
        Some(column) => column.kind,
        None => Kind::Text,
    }
}

/// A column that is there, and has no value yet: refused with 42703 or 42601.
pub(crate) fn check_target(
    alloc: Global,
    columns: &[ScopeColumn],
    is_set: bool,
    name: &[u8],
) -> Result<(), Refusal>
    ensures { IsAnswer result (or_first (inserts.target_faults is_set name.now (inserts.place_of columns.now name.now)) tt) }
{
    match place_of(columns, name) {
        None => Err(Refusal::Sql(no_column(alloc, name)?)),
        Some(_) => {
            if is_set {
                return Err(Refusal::Sql(set_twice(alloc, name)?));
            }
            Ok(())
        }
    }
}

fn is_among(names: &[PgText], name: &[u8]) -> bool
    ensures { result ≡ list_any (bytes_eq name.now) names.now }
{
    for other in names {
        if name == other.as_bytes() {
            return true;
        }
    }
    false
}

fn check_columns(alloc: Global, columns: &[ScopeColumn], names: &[PgText]) -> Result<(), Refusal>
    ensures { IsAnswer result (or_first (inserts.column_faults columns.now [] names.now) tt) }
{
    for (place, name) in names.iter().enumerate() {
        let is_set = is_among(&names[..place], name.as_bytes());
        check_target(alloc, columns, is_set, name.as_bytes())?;
    }
    Ok(())
}

fn check_named(
    alloc: Global,
    columns: &[ScopeColumn],
    names: &Option<NameList>,
) -> Result<(), Refusal>
    ensures { IsAnswer result (or_first (inserts.named_faults columns.now names.now) tt) }
{
    match names {
        None => Ok(()),
        Some(names) => check_columns(alloc, columns, names.as_slice()),
    }
}

fn add_place(places: &mut Vec<usize>, place: usize) -> Result<(), NoMemory>
    ensures { OnOk result (places.new.items ≡ places.old.items ++ place ∷ []) }
{
    places.push(place)?;
    Ok(())
}

fn places_of(
    alloc: Global,
    columns: &[ScopeColumn],
    names: &[PgText],
) -> Result<Vec<usize>, NoMemory>
    ensures { IfOk result (λ v. v.items ≡ inserts.places_of columns.now names.now) }
{
    let mut places = Vec::new(alloc);
    for name in names {
        add_place(&mut places, place_in(columns, name.as_bytes()))?;
    }
    Ok(places)
}

#[tactic(auto, using(crate::proofs::Places::first_next))]
fn first_places(alloc: Global, count: usize) -> Result<Vec<usize>, NoMemory>
    ensures { IfOk result (λ v. v.items ≡ inserts.from_to 0 count) }
{
    let mut places = Vec::new(alloc);
    for place in 0..count {
        add_place(&mut places, place)?;
    }
    Ok(places)
}

/// How many values a row has.
pub(crate) fn count_of(row: &ExprList) -> usize
    ensures { result ≡ inserts.count_of (trees row.now) }
{
    row.as_slice().len()
}

fn first_count(rows: &[ExprList]) -> usize
    ensures { result ≡ inserts.first_count (map trees rows.now) }
{
    match rows.first() {
        None => 0,
        Some(row) => count_of(row),
    }
}

// The places of the columns that get values.
fn targets(
    alloc: Global,
    columns: &[ScopeColumn],
    names: &Option<NameList>,
    rows: &[ExprList],
) -> Result<Vec<usize>, NoMemory>
    ensures { IfOk result (λ v. v.items ≡ inserts.targets columns.now names.now (map trees rows.now)) }
{
    match names {
        None => first_places(alloc, first_count(rows).min(columns.len())),
        Some(names) => places_of(alloc, columns, names.as_slice()),
    }
}

fn kinds_of(alloc: Global, columns: &[ScopeColumn], places: &[usize]) -> Result<Vec<Kind>, NoMemory>
    ensures { IfOk result (λ v. v.items ≡ inserts.kinds_of columns.now places.now) }
{
    let mut kinds = Vec::new(alloc);
    for place in places {
        kinds.push(kind_at(columns, *place))?;
    }
    Ok(kinds)
}

// ---- rows

#[inline(never)]
fn check_any(alloc: Global, names: &Names<'_>, kind: Kind, e: &Expr) -> Result<(), Refusal>
    ensures { IsAnswer result (or_first (operand_faults names.now (tree e.now) ++ kinds_spec.assigned_faults kind (typed names.now (tree e.now)).given) tt) }
{
    check_operand(alloc, names, e)?;
    check_assigned(alloc, kind, typed_of(names, e).given)
}

/// The operand, and that a column of the kind may get it: 42804.
pub(crate) fn check_value(
    alloc: Global,
    names: &Names<'_>,
    kind: Kind,
    e: &Expr,
) -> Result<(), Refusal>
    ensures { IsAnswer result (or_first (operand_faults names.now (tree e.now) ++ kinds_spec.assigned_faults kind (typed names.now (tree e.now)).given) tt) }
{
    if is_plain(kind, e) {
        return Ok(());
    }
    check_any(alloc, names, kind, e)
}

fn check_values(
    alloc: Global,
    names: &Names<'_>,
    kinds: &[Kind],
    row: &[Expr],
) -> Result<(), Refusal>
    ensures { IsAnswer result (or_first (inserts.value_faults names.now kinds.now (listed (map tree row.now))) tt) }
{
    let mut wanted = kinds;
    for e in row {
        match wanted.split_first() {
            None => check_operand(alloc, names, e)?,
            Some((kind, others)) => {
                check_value(alloc, names, *kind, e)?;
                wanted = others;
            }
        }
    }
    Ok(())
}

fn check_row(
    alloc: Global,
    names: &Names<'_>,
    kinds: &[Kind],
    row: &ExprList,
) -> Result<(), Refusal>
    ensures { IsAnswer result (or_first (inserts.value_faults names.now kinds.now (trees row.now) ++ kinds_spec.count_faults (inserts.count_of (trees row.now)) (length kinds.now)) tt) }
{
    check_values(alloc, names, kinds, row.as_slice())?;
    check_count(alloc, count_of(row), kinds.len())
}

fn check_rows(
    alloc: Global,
    names: &Names<'_>,
    kinds: &[Kind],
    rows: &[ExprList],
) -> Result<(), Refusal>
    ensures { IsAnswer result (or_first (inserts.row_faults names.now kinds.now (length kinds.now) (map trees rows.now)) tt) }
{
    for row in rows {
        check_row(alloc, names, kinds, row)?;
    }
    Ok(())
}

#[inline(never)]
fn computed_value(alloc: Global, names: &Names<'_>, kind: Kind, e: &Expr) -> Result<Value, Refusal>
    ensures { IsAnswer result (inserts.stored_value names.now kind (tree e.now)) }
{
    let value = bind_constant(alloc, names, kind, e)?;
    store(alloc, kind, value)
}

/// The value of a constant, as a column of the kind gets it.
pub(crate) fn stored_value(
    alloc: Global,
    names: &Names<'_>,
    kind: Kind,
    e: &Expr,
) -> Result<Value, Refusal>
    ensures { IsAnswer result (inserts.stored_value names.now kind (tree e.now)) }
{
    if let Some(value) = plain_value(kind, e) {
        return Ok(value);
    }
    computed_value(alloc, names, kind, e)
}

fn add_value(row: &mut Row, value: Value) -> Result<(), NoMemory>
    ensures { OnOk result (row.new ≡ row.old ++ value ∷ []) }
{
    row.push(value)?;
    Ok(())
}

fn bind_row(
    alloc: Global,
    names: &Names<'_>,
    kinds: &[Kind],
    values: &[Expr],
) -> Result<Row, Refusal>
    ensures { IsAnswer result (or_first (inserts.value_constants names.now kinds.now (listed (map tree values.now))) (inserts.row_values names.now kinds.now (listed (map tree values.now)))) }
{
    let mut row = Row::with_room(alloc, kinds.len())?;
    let mut wanted = kinds;
    for e in values {
        match wanted.split_first() {
            None => return Ok(row),
            Some((kind, others)) => {
                let value = stored_value(alloc, names, *kind, e)?;
                add_value(&mut row, value)?;
                wanted = others;
            }
        }
    }
    Ok(row)
}

fn room_for(alloc: Global, rows: usize) -> Result<Vec<Row>, NoMemory>
    ensures { IfOk result (λ v. v.items ≡ []) }
{
    Ok(Vec::with_capacity(alloc, rows)?)
}

fn add_row(rows: &mut Vec<Row>, row: Row) -> Result<(), NoMemory>
    ensures { OnOk result (rows.new.items ≡ rows.old.items ++ row ∷ []) }
{
    rows.push(row)?;
    Ok(())
}

fn bind_rows(
    alloc: Global,
    names: &Names<'_>,
    kinds: &[Kind],
    rows: &[ExprList],
) -> Result<ListOf<Row>, Refusal>
    ensures { IsAnswer result (or_first (inserts.row_constants names.now kinds.now (map trees rows.now)) (inserts.all_values names.now kinds.now (map trees rows.now))) }
{
    let mut made = room_for(alloc, rows.len())?;
    for row in rows {
        let values = bind_row(alloc, names, kinds, row.as_slice())?;
        add_row(&mut made, values)?;
    }
    Ok(ListOf::from_vec(made))
}

// ---- the statement

fn value_scope<'a>(params: &'a [Param], session: u32) -> Names<'a>
    ensures { result ≡ inserts.value_scope params.now session }
{
    condition_names(&[], params, session)
}

fn check_and_bind(
    alloc: Global,
    names: &Names<'_>,
    kinds: &[Kind],
    rows: &[ExprList],
) -> Result<ListOf<Row>, Refusal>
    ensures { IsAnswer result (or_first (inserts.row_faults names.now kinds.now (length kinds.now) (map trees rows.now) ++ inserts.row_constants names.now kinds.now (map trees rows.now)) (inserts.all_values names.now kinds.now (map trees rows.now))) }
{
    check_rows(alloc, names, kinds, rows)?;
    bind_rows(alloc, names, kinds, rows)
}

fn bind_into(
    alloc: Global,
    names: &Names<'_>,
    columns: &[ScopeColumn],
    targets: Vec<usize>,
    rows: &[ExprList],
) -> Result<InsertAsk, Refusal>
    ensures { IsAnswerBy insert_meant result (or_first (inserts.row_faults names.now (inserts.kinds_of columns.now targets.items) (length targets.items) (map trees rows.now) ++ inserts.row_constants names.now (inserts.kinds_of columns.now targets.items) (map trees rows.now)) (record { columns = targets.items; rows = inserts.all_values names.now (inserts.kinds_of columns.now targets.items) (map trees rows.now) })) }
{
    let kinds = kinds_of(alloc, columns, &targets)?;
    let rows = check_and_bind(alloc, names, &kinds, rows)?;
    Ok(InsertAsk {
        columns: ListOf::from_vec(targets),
        rows,
    })
}

/// The INSERT by places and values, into a table with the columns; or its first fault. The column list
/// comes first: 42703, or 42601 for a column that stands there twice. Then names and kinds in the values
/// of each row, and their count: 42601. Then constants.
pub fn bind_insert(
    alloc: Global,
    insert: &Insert,
    columns: &[ScopeColumn],
    params: &[Param],
    session: u32,
) -> Result<InsertAsk, Refusal>
    ensures { IsAnswerBy insert_meant result (bound_insert columns.now params.now session insert.now.columns (map trees insert.now.rows)) }
{
    check_named(alloc, columns, &insert.columns)?;
    let rows = insert.rows.as_slice();
    let targets = targets(alloc, columns, &insert.columns, rows)?;
    bind_into(alloc, &value_scope(params, session), columns, targets, rows)
}
