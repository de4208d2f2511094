ghost use Rattle.std.specs.Prelude.{◌≡◌, map, take, drop};
ghost use Rattle.sql_ast.specs.Expressions.{tree};
ghost use Rattle.sql_ast.specs.Queries.{item_tree, joined_tree, key_tree, maybe_tree, select_tree};
ghost use Rattle.sql_binder.specs.From as from;
ghost use Rattle.prepared_statements.specs.Firsts.{noted};
ghost use Rattle.prepared_statements.specs.ParameterPlaces as places;
ghost use Rattle.prepared_statements.specs.StatementPlaces as statements;

use crate::first_kinds::FirstKinds;
use crate::parameter_places::{note_at, note_in};
use expression_binder::{Given, Names, ScopeItem, condition_names};
use pg_values::Kind;
use sql_ast::{Expr, FromItem, Select, SelectItem, SortKey};

/// The names of the items alone: what parameters are is said by their kinds.
pub(crate) fn bare<'a>(items: &'a [ScopeItem]) -> Names<'a>
    ensures { result ≡ statements.bare items.now }
{
    condition_names(items, &[], 0)
}

#[tactic(auto, using(crate::proofs::Firsts::noted_none))]
fn note_listed(firsts: &mut FirstKinds, names: &Names<'_>, givens: &[Given], listed: &SelectItem)
    ensures { firsts.new ≡ noted firsts.old (statements.listed_places names.now givens.now (item_tree listed.now)) }
{
    match listed {
        SelectItem::All => (),
        SelectItem::AllOf(_) => (),
        SelectItem::Output(e, _) => note_in(firsts, names, givens, e),
    }
}

fn note_list(firsts: &mut FirstKinds, names: &Names<'_>, givens: &[Given], list: &[SelectItem])
    ensures { firsts.new ≡ noted firsts.old (statements.list_places names.now givens.now (map item_tree list.now)) }
{
    for listed in list {
        note_listed(firsts, names, givens, listed);
    }
}

fn first_items(items: &[ScopeItem], n: usize) -> &[ScopeItem]
    ensures { result.now ≡ take n items.now }
{
    &items[..n.min(items.len())]
}

fn items_from(items: &[ScopeItem], n: usize) -> &[ScopeItem]
    ensures { result.now ≡ drop n items.now }
{
    &items[n.min(items.len())..]
}

// The items that an ON may name.
fn joined_items(items: &[ScopeItem], start: usize, last: usize) -> &[ScopeItem]
    ensures { result.now ≡ from.joined_items items.now start last }
{
    if last < items.len() {
        items_from(first_items(items, last + 1), start)
    } else {
        items_from(items, start)
    }
}

#[tactic(auto, using(crate::proofs::Firsts::noted_none))]
fn note_on(
    firsts: &mut FirstKinds,
    items: &[ScopeItem],
    givens: &[Given],
    start: usize,
    place: usize,
    on: &Option<Expr>,
)
    ensures { firsts.new ≡ noted firsts.old (statements.on_place items.now givens.now start place (maybe_tree on.now)) }
{
    if let Some(e) = on {
        note_in(firsts, &bare(joined_items(items, start, place)), givens, e);
    }
}

// A comma begins anew.
fn next_start(start: usize, place: usize, on: &Option<Expr>) -> usize
    ensures { result ≡ from.start_of start place (maybe_tree on.now) }
{
    match on {
        None => place,
        Some(_) => start,
    }
}

fn note_joins(firsts: &mut FirstKinds, items: &[ScopeItem], givens: &[Given], tables: &[FromItem])
    ensures { firsts.new ≡ noted firsts.old (statements.on_places items.now givens.now 0 0 (map joined_tree tables.now)) }
{
    let mut start = 0;
    for (place, table) in tables.iter().enumerate() {
        note_on(firsts, items, givens, start, place, &table.on);
        start = next_start(start, place, &table.on);
    }
}

/// Notes what the places in the condition of WHERE give.
#[tactic(auto, using(crate::proofs::Firsts::noted_none))]
pub(crate) fn note_where(
    firsts: &mut FirstKinds,
    names: &Names<'_>,
    givens: &[Given],
    condition: &Option<Expr>,
)
    ensures { firsts.new ≡ noted firsts.old (statements.where_places names.now givens.now (maybe_tree condition.now)) }
{
    if let Some(e) = condition {
        note_in(firsts, names, givens, e);
    }
}

fn note_keys(firsts: &mut FirstKinds, names: &Names<'_>, givens: &[Given], keys: &[SortKey])
    ensures { firsts.new ≡ noted firsts.old (statements.keys_places names.now givens.now (map key_tree keys.now)) }
{
    for key in keys {
        note_in(firsts, names, givens, &key.value);
    }
}

#[tactic(auto, using(crate::proofs::Firsts::noted_both, crate::proofs::Firsts::noted_none))]
fn note_count(firsts: &mut FirstKinds, givens: &[Given], count: &Option<Expr>)
    ensures { firsts.new ≡ noted firsts.old (statements.count_places givens.now (maybe_tree count.now)) }
{
    if let Some(e) = count {
        note_at(firsts, Some(Kind::Int8), e);
        note_in(firsts, &bare(&[]), givens, e);
    }
}

/// Notes what the places in a SELECT from the items give.
#[tactic(auto, using(crate::proofs::Firsts::noted_both))]
pub(crate) fn note_select(
    firsts: &mut FirstKinds,
    select: &Select,
    items: &[ScopeItem],
    givens: &[Given],
)
    ensures { firsts.new ≡ noted firsts.old (statements.select_places items.now givens.now (select_tree select.now)) }
{
    let names = bare(items);
    note_list(firsts, &names, givens, select.items.as_slice());
    note_joins(firsts, items, givens, select.from.as_slice());
    note_where(firsts, &names, givens, &select.condition);
    note_keys(firsts, &names, givens, select.order.as_slice());
    note_count(firsts, givens, &select.limit);
    note_count(firsts, givens, &select.offset);
}
