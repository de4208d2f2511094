ghost use Rattle.std.specs.Prelude.{◌≡◌, ◌∷◌, [], map, take, drop};
ghost use Rattle.sql_ast.specs.Expressions.{tree, trees, listed};
ghost use Rattle.sql_ast.specs.Queries.{maybe_tree, setting};
ghost use Rattle.sql_binder.specs.Inserts as inserts;
ghost use Rattle.prepared_statements.specs.Firsts.{noted};
ghost use Rattle.prepared_statements.specs.StatementPlaces as statements;

use crate::first_kinds::FirstKinds;
use crate::parameter_places::{note_at, note_in};
use crate::selects::{bare, note_where};
use expression_binder::{Given, ScopeColumn, ScopeItem};
use pg_values::{Kind, PgText};
use sql_ast::{Assignment, Delete, Expr, ExprList, Insert, Update};
use std::slice::from_ref;

fn place_of(columns: &[ScopeColumn], name: &[u8]) -> Option<usize>
    ensures { result ≡ inserts.place_of columns.now name.now }
{
    columns.iter().position(|c| c.name.as_bytes() == name)
}

fn kind_of_column(columns: &[ScopeColumn], place: usize) -> Kind
    ensures { result ≡ inserts.kind_at columns.now place }
{
    match columns.get(place) {
        Some(column) => column.kind,
        None => Kind::Text,
    }
}

fn kind_named(columns: &[ScopeColumn], name: &[u8]) -> Option<Kind>
    ensures { result ≡ statements.kind_named columns.now name.now }
{
    match place_of(columns, name) {
        None => None,
        Some(place) => Some(kind_of_column(columns, place)),
    }
}

// ---- INSERT

#[tactic(auto, using(crate::proofs::Firsts::noted_both))]
fn note_value(firsts: &mut FirstKinds, givens: &[Given], kind: Option<Kind>, e: &Expr)
    ensures { firsts.new ≡ noted firsts.old (statements.value_place givens.now kind (tree e.now)) }
{
    note_at(firsts, kind, e);
    note_in(firsts, &bare(&[]), givens, e);
}

fn first_kind(columns: &[ScopeColumn]) -> Option<Kind>
    ensures { result ≡ statements.first_kind (map statements.column_kind columns.now) }
{
    match columns.first() {
        None => None,
        Some(column) => Some(column.kind),
    }
}

fn later_columns(columns: &[ScopeColumn]) -> &[ScopeColumn]
    ensures { result.now ≡ drop 1 columns.now }
{
    &columns[1.min(columns.len())..]
}

fn later_names(names: &[PgText]) -> &[PgText]
    ensures { result.now ≡ drop 1 names.now }
{
    &names[1.min(names.len())..]
}

// A row whose values are for the columns in their order.
fn note_row(firsts: &mut FirstKinds, columns: &[ScopeColumn], givens: &[Given], row: &[Expr])
    ensures { firsts.new ≡ noted firsts.old (statements.value_places givens.now (map statements.column_kind columns.now) (listed (map tree row.now))) }
{
    let mut wanted = columns;
    for e in row {
        note_value(firsts, givens, first_kind(wanted), e);
        wanted = later_columns(wanted);
    }
}

fn first_named(columns: &[ScopeColumn], names: &[PgText]) -> Option<Kind>
    ensures { result ≡ statements.first_kind (map (statements.kind_named columns.now) names.now) }
{
    match names.first() {
        None => None,
        Some(name) => kind_named(columns, name.as_bytes()),
    }
}

// A row whose values are for the named columns.
fn note_named_row(
    firsts: &mut FirstKinds,
    columns: &[ScopeColumn],
    names: &[PgText],
    givens: &[Given],
    row: &[Expr],
)
    ensures { firsts.new ≡ noted firsts.old (statements.value_places givens.now (map (statements.kind_named columns.now) names.now) (listed (map tree row.now))) }
{
    let mut wanted = names;
    for e in row {
        note_value(firsts, givens, first_named(columns, wanted), e);
        wanted = later_names(wanted);
    }
}

fn note_rows(firsts: &mut FirstKinds, columns: &[ScopeColumn], givens: &[Given], rows: &[ExprList])
    ensures { firsts.new ≡ noted firsts.old (statements.row_places givens.now (map statements.column_kind columns.now) (map trees rows.now)) }
{
    for row in rows {
        note_row(firsts, columns, givens, row.as_slice());
    }
}

fn note_named_rows(
    firsts: &mut FirstKinds,
    columns: &[ScopeColumn],
    names: &[PgText],
    givens: &[Given],
    rows: &[ExprList],
)
    ensures { firsts.new ≡ noted firsts.old (statements.row_places givens.now (map (statements.kind_named columns.now) names.now) (map trees rows.now)) }
{
    for row in rows {
        note_named_row(firsts, columns, names, givens, row.as_slice());
    }
}

fn first_count(rows: &[ExprList]) -> usize
    ensures { result ≡ inserts.first_count (map trees rows.now) }
{
    match rows.first() {
        None => 0,
        Some(row) => count_of(row),
    }
}

fn count_of(row: &ExprList) -> usize
    ensures { result ≡ inserts.count_of (trees row.now) }
{
    row.as_slice().len()
}

fn first_columns(columns: &[ScopeColumn], n: usize) -> &[ScopeColumn]
    ensures { result.now ≡ take n columns.now }
{
    &columns[..n.min(columns.len())]
}

/// Notes what the places in an INSERT into a table with the columns give.
pub(crate) fn note_insert(
    firsts: &mut FirstKinds,
    insert: &Insert,
    columns: &[ScopeColumn],
    givens: &[Given],
)
    ensures { firsts.new ≡ noted firsts.old (statements.insert_places columns.now givens.now insert.now.columns (map trees insert.now.rows)) }
{
    let rows = insert.rows.as_slice();
    match &insert.columns {
        None => note_rows(
            firsts,
            first_columns(columns, first_count(rows)),
            givens,
            rows,
        ),
        Some(names) => note_named_rows(firsts, columns, names.as_slice(), givens, rows),
    }
}

// ---- UPDATE and DELETE

#[tactic(auto, using(crate::proofs::Firsts::noted_both))]
fn note_setting(
    firsts: &mut FirstKinds,
    item: &ScopeItem,
    givens: &[Given],
    assignment: &Assignment,
)
    ensures { firsts.new ≡ noted firsts.old (statements.setting_places item.now givens.now (setting assignment.now)) }
{
    let kind = kind_named(item.columns(), assignment.column.as_bytes());
    note_at(firsts, kind, &assignment.value);
    note_in(firsts, &bare(from_ref(item)), givens, &assignment.value);
}

fn note_settings(
    firsts: &mut FirstKinds,
    item: &ScopeItem,
    givens: &[Given],
    settings: &[Assignment],
)
    ensures { firsts.new ≡ noted firsts.old (statements.settings_places item.now givens.now (map setting settings.now)) }
{
    for assignment in settings {
        note_setting(firsts, item, givens, assignment);
    }
}

/// Notes what the places in an UPDATE of the item give.
#[tactic(auto, using(crate::proofs::Firsts::noted_both))]
pub(crate) fn note_update(
    firsts: &mut FirstKinds,
    update: &Update,
    item: &ScopeItem,
    givens: &[Given],
)
    ensures { firsts.new ≡ noted firsts.old (statements.change_places item.now givens.now (map setting update.now.assignments) (maybe_tree update.now.condition)) }
{
    note_settings(firsts, item, givens, update.assignments.as_slice());
    note_where(firsts, &bare(from_ref(item)), givens, &update.condition);
}

/// Notes what the places in a DELETE from the item give.
pub(crate) fn note_delete(
    firsts: &mut FirstKinds,
    delete: &Delete,
    item: &ScopeItem,
    givens: &[Given],
)
    ensures { firsts.new ≡ noted firsts.old (statements.change_places item.now givens.now [] (maybe_tree delete.now.condition)) }
{
    note_where(firsts, &bare(from_ref(item)), givens, &delete.condition);
}
