ghost use Rattle.std.specs.Prelude.{◌≡◌, ◌++◌, map, IfOk};
ghost use Rattle.pg_values.specs.Refusals.{IsAnswer};
ghost use Rattle.refusals.specs.Refusals as refusals;
ghost use Rattle.cond_logic.specs.Trees.{cond_tree};
ghost use Rattle.sql_ast.specs.Queries.{item_tree, joined_tree, key_tree, maybe_tree, select_tree};
ghost use Rattle.expression_binder.specs.Firsts.{or_first, fault_in, IsAnswerBy};
ghost use Rattle.sql_binder.specs.Counts as counts;
ghost use Rattle.sql_binder.specs.From as from;
ghost use Rattle.sql_binder.specs.Items as items_of;
ghost use Rattle.sql_binder.specs.KeyNames.{asked_for};
ghost use Rattle.sql_binder.specs.Keys as keys;
ghost use Rattle.sql_binder.specs.Known.{scope_of, outputs_of};
ghost use Rattle.sql_binder.specs.Lent.{heading};
ghost use Rattle.sql_binder.specs.Selects as selects;
ghost use Rattle.sql_binder.specs.Selects.{bound_select};
ghost use Rattle.cond_logic.specs.Asked.{output_tree, select_meant};

use crate::counts::{bind_count, check_count_of};
use crate::from::{bind_conditions, check_conditions, check_from};
use crate::heading::Heading;
use crate::items::{bind_list, check_list, in_a_select_list, output_headings};
use crate::key_names::KeyNames;
use crate::keys::{bind_keys, check_keys};
use cond_logic::{Cond, Output, SelectAsk, SortKey};
use expression_binder::{Names, Param, ScopeItem, condition_names};
use pg_values::{ListOf, NoMemory, PgText, Refusal};
use refusals::{negative_limit, negative_offset};
use sql_ast::{Select, SelectItem, SortKey as Key};
use std::alloc::Global;

fn list_scope<'a>(items: &'a [ScopeItem], params: &'a [Param], session: u32) -> Names<'a>
    ensures { result ≡ selects.list_scope items.now params.now session }
{
    Names::new(items, params, session, in_a_select_list(items))
}

fn without_columns(alloc: Global, item: &ScopeItem) -> Result<ScopeItem, NoMemory>
    ensures { IfOk result (λ bare. bare ≡ selects.without_columns item.now) }
{
    let name = PgText::from_bytes(alloc, item.name())?;
    Ok(ScopeItem::new(name, item.number(), Vec::new(alloc)))
}

// The items as LIMIT and OFFSET see them.
fn bare_items(alloc: Global, items: &[ScopeItem]) -> Result<Vec<ScopeItem>, NoMemory>
    ensures { IfOk result (λ bare. bare.items ≡ map selects.without_columns items.now) }
{
    let mut bare = Vec::new(alloc);
    for item in items {
        bare.push(without_columns(alloc, item)?)?;
    }
    Ok(bare)
}

// The select list, the conditions of ON and that of WHERE.
fn check_front(
    alloc: Global,
    names: &Names<'_>,
    select: &Select,
    items: &[ScopeItem],
    params: &[Param],
    session: u32,
) -> Result<(), Refusal>
    ensures { IsAnswer result (or_first (items_of.list_faults names.now (map item_tree select.now.items) ++ from.condition_faults params.now session (from.all_conditions items.now (map joined_tree select.now.from) (maybe_tree select.now.condition))) tt) }
{
    let tables = select.from.as_slice();
    check_list(alloc, names, select.items.as_slice())?;
    check_conditions(alloc, items, params, session, tables, &select.condition)
}

// ORDER BY, LIMIT and OFFSET.
fn check_tail(
    alloc: Global,
    known: &KeyNames<'_>,
    counting: &Names<'_>,
    select: &Select,
) -> Result<(), Refusal>
    ensures { IsAnswer result (or_first (keys.keys_faults (scope_of known.now) (outputs_of known.now) (map key_tree select.now.order) ++ (counts.count_faults counting.now (maybe_tree select.now.limit) ++ counts.count_faults counting.now (maybe_tree select.now.offset))) tt) }
{
    check_keys(alloc, known, select.order.as_slice())?;
    check_count_of(alloc, counting, &select.limit)?;
    check_count_of(alloc, counting, &select.offset)
}

#[tactic(auto, using(crate::proofs::FirstOutputs::faults_asked))]
fn check_names(
    alloc: Global,
    select: &Select,
    items: &[ScopeItem],
    params: &[Param],
    session: u32,
    counting: &Names<'_>,
    known: &KeyNames<'_>,
) -> Result<(), Refusal>
    requires counting { counting.now ≡ selects.count_scope items.now params.now session }
    requires scope { scope_of known.now ≡ selects.list_scope items.now params.now session }
    requires outputs { outputs_of known.now ≡ asked_for (map key_tree select.now.order) (items_of.list_headings items.now (map item_tree select.now.items)) }
    ensures { IsAnswer result (or_first (selects.name_faults items.now params.now session (select_tree select.now)) tt) }
{
    check_front(alloc, known.names(), select, items, params, session)?;
    check_tail(alloc, known, counting, select)
}

fn bind_counts(
    alloc: Global,
    counting: &Names<'_>,
    select: &Select,
) -> Result<(Option<u64>, Option<u64>), Refusal>
    ensures { IsAnswer result (or_first (fault_in (counts.count refusals.negative_limit counting.now (maybe_tree select.now.limit)) ++ fault_in (counts.count refusals.negative_offset counting.now (maybe_tree select.now.offset))) (counts.or_none (counts.count refusals.negative_limit counting.now (maybe_tree select.now.limit)), counts.or_none (counts.count refusals.negative_offset counting.now (maybe_tree select.now.offset)))) }
{
    let limit = bind_count(alloc, counting, &select.limit, negative_limit(alloc))?;
    let offset = bind_count(alloc, counting, &select.offset, negative_offset(alloc))?;
    Ok((limit, offset))
}

// ORDER BY, LIMIT and OFFSET.
fn bind_tail(
    alloc: Global,
    known: &KeyNames<'_>,
    counting: &Names<'_>,
    select: &Select,
) -> Result<(Vec<SortKey>, (Option<u64>, Option<u64>)), Refusal>
    ensures { IsAnswerBy {U = selects.Tail} (λ p. (p.0.items, p.1)) result (or_first (keys.keys_constants (map key_tree select.now.order) ++ (fault_in (counts.count refusals.negative_limit counting.now (maybe_tree select.now.limit)) ++ fault_in (counts.count refusals.negative_offset counting.now (maybe_tree select.now.offset)))) (keys.sort_keys (scope_of known.now) (outputs_of known.now) (map key_tree select.now.order), (counts.or_none (counts.count refusals.negative_limit counting.now (maybe_tree select.now.limit)), counts.or_none (counts.count refusals.negative_offset counting.now (maybe_tree select.now.offset))))) }
{
    let order = bind_keys(alloc, known, select.order.as_slice())?;
    let counts = bind_counts(alloc, counting, select)?;
    Ok((order, counts))
}

// The select list, the conditions of ON and that of WHERE.
fn bind_front(
    alloc: Global,
    names: &Names<'_>,
    select: &Select,
    items: &[ScopeItem],
    params: &[Param],
    session: u32,
) -> Result<(Vec<Output>, Vec<Cond>), Refusal>
    ensures { IsAnswerBy {U = selects.Front} (λ p. (map output_tree p.0.items, map cond_tree p.1.items)) result (or_first (items_of.list_constants names.now (map item_tree select.now.items) ++ from.condition_constants params.now session (from.all_conditions items.now (map joined_tree select.now.from) (maybe_tree select.now.condition))) (items_of.list_outputs names.now (map item_tree select.now.items), from.condition_meanings params.now session (from.all_conditions items.now (map joined_tree select.now.from) (maybe_tree select.now.condition)))) }
{
    let tables = select.from.as_slice();
    let outputs = bind_list(alloc, names, select.items.as_slice())?;
    let conditions = bind_conditions(alloc, items, params, session, tables, &select.condition)?;
    Ok((outputs, conditions))
}

fn ask_for(
    outputs: Vec<Output>,
    conditions: Vec<Cond>,
    order: Vec<SortKey>,
    limit: Option<u64>,
    offset: Option<u64>,
) -> SelectAsk
    ensures { select_meant result ≡ record { outputs = map output_tree outputs.items; conditions = map cond_tree conditions.items; order = order.items; limit = limit; offset = offset } }
{
    SelectAsk {
        outputs: ListOf::from_vec(outputs),
        conditions: ListOf::from_vec(conditions),
        order: ListOf::from_vec(order),
        limit,
        offset,
    }
}

fn bind_parts(
    alloc: Global,
    select: &Select,
    items: &[ScopeItem],
    params: &[Param],
    session: u32,
    counting: &Names<'_>,
    known: &KeyNames<'_>,
) -> Result<SelectAsk, Refusal>
    requires counting { counting.now ≡ selects.count_scope items.now params.now session }
    requires scope { scope_of known.now ≡ selects.list_scope items.now params.now session }
    requires outputs { outputs_of known.now ≡ asked_for (map key_tree select.now.order) (items_of.list_headings items.now (map item_tree select.now.items)) }
    ensures { IsAnswerBy select_meant result (or_first (selects.constant_faults items.now params.now session (select_tree select.now)) (selects.meaning items.now params.now session (select_tree select.now))) }
{
    let names = known.names();
    let (outputs, conditions) = bind_front(alloc, names, select, items, params, session)?;
    let (order, (limit, offset)) = bind_tail(alloc, known, counting, select)?;
    Ok(ask_for(outputs, conditions, order, limit, offset))
}

// The output columns that keys may name.
fn key_headings<'a>(
    alloc: Global,
    items: &'a [ScopeItem],
    list: &'a [SelectItem],
    order: &[Key],
) -> Result<Vec<Heading<'a>>, NoMemory>
    ensures { IfOk result (λ hs. map heading hs.items ≡ asked_for (map key_tree order.now) (items_of.list_headings items.now (map item_tree list.now))) }
{
    match order {
        [] => Ok(Vec::new(alloc)),
        [_, ..] => output_headings(alloc, items, list),
    }
}

fn bind_checked(
    alloc: Global,
    select: &Select,
    items: &[ScopeItem],
    params: &[Param],
    session: u32,
) -> Result<SelectAsk, Refusal>
    ensures { IsAnswerBy select_meant result (or_first (selects.name_faults items.now params.now session (select_tree select.now) ++ selects.constant_faults items.now params.now session (select_tree select.now)) (selects.meaning items.now params.now session (select_tree select.now))) }
{
    let names = list_scope(items, params, session);
    let list = select.items.as_slice();
    let headings = key_headings(alloc, items, list, select.order.as_slice())?;
    let known = KeyNames::new(alloc, &names, &headings)?;
    let bare = bare_items(alloc, items)?;
    let counting = condition_names(&bare, params, session);
    check_names(alloc, select, items, params, session, &counting, &known)?;
    bind_parts(alloc, select, items, params, session, &counting, &known)
}

/// The SELECT by places and values, over the items of its FROM, in their order; or its first fault. The
/// faults of FROM come first: 54000, then 42712. Then those of names and kinds: the select list, the
/// conditions of ON, WHERE, ORDER BY, LIMIT and OFFSET. Then those of constants in the same order.
pub fn bind_select(
    alloc: Global,
    select: &Select,
    items: &[ScopeItem],
    params: &[Param],
    session: u32,
) -> Result<SelectAsk, Refusal>
    ensures { IsAnswerBy select_meant result (bound_select items.now params.now session (select_tree select.now)) }
{
    check_from(alloc, select.from.as_slice())?;
    bind_checked(alloc, select, items, params, session)
}
