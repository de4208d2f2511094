ghost use Rattle.std.specs.Prelude.{◌≡◌, ◌++◌, ◌∷◌, [], map, take, drop, OnOk};
ghost use Rattle.std.specs.List.{list_any};
ghost use Rattle.std.specs.Str.{bytes_eq};
ghost use Rattle.pg_values.specs.Refusals.{IsAnswer};
ghost use Rattle.sql_ast.specs.Queries.{joined_tree, maybe_tree};
ghost use Rattle.cond_logic.specs.Trees.{cond_tree};
ghost use Rattle.expression_binder.specs.Firsts.{or_first, IsAnswerBy};
ghost use Rattle.sql_binder.specs.From as from;

use cond_logic::Cond;
use expression_binder::{Param, ScopeItem, bind_condition, check_condition, condition_names};
use pg_values::{NoMemory, Refusal, Which};
use refusals::{name_twice, too_many};
use sql_ast::{Expr, FromItem};
use std::alloc::Global;

fn check_from_count(alloc: Global, tables: &[FromItem]) -> Result<(), Refusal>
    ensures { IsAnswer result (or_first (from.count_faults (map joined_tree tables.now)) tt) }
{
    if tables.len() <= 4 {
        return Ok(());
    }
    Err(Refusal::Sql(too_many(alloc, Which::TablesInFrom)?))
}

fn item_name(table: &FromItem) -> &[u8]
    ensures { result.now ≡ from.item_name (joined_tree table.now) }
{
    match &table.table.alias {
        None => table.table.name.as_bytes(),
        Some(alias) => alias.as_bytes(),
    }
}

// Whether one of the items goes by that name.
fn is_among(tables: &[FromItem], name: &[u8]) -> bool
    ensures { result ≡ list_any (bytes_eq name.now) (map from.item_name (map joined_tree tables.now)) }
{
    for table in tables {
        if name == item_name(table) {
            return true;
        }
    }
    false
}

fn check_item_name(alloc: Global, earlier: &[FromItem], name: &[u8]) -> Result<(), Refusal>
    ensures { IsAnswer result (or_first (from.once_faults (map from.item_name (map joined_tree earlier.now)) name.now) tt) }
{
    if is_among(earlier, name) {
        return Err(Refusal::Sql(name_twice(alloc, name)?));
    }
    Ok(())
}

fn check_item_names(alloc: Global, tables: &[FromItem]) -> Result<(), Refusal>
    ensures { IsAnswer result (or_first (from.twice_faults [] (map from.item_name (map joined_tree tables.now))) tt) }
{
    for (place, table) in tables.iter().enumerate() {
        check_item_name(alloc, &tables[..place], item_name(table))?;
    }
    Ok(())
}

/// There are few items, and each has its own name: refused with 54000 or 42712.
pub(crate) fn check_from(alloc: Global, tables: &[FromItem]) -> Result<(), Refusal>
    ensures { IsAnswer result (or_first (from.from_faults (map joined_tree tables.now)) tt) }
{
    check_from_count(alloc, tables)?;
    check_item_names(alloc, tables)
}

fn first_items(items: &[ScopeItem], n: usize) -> &[ScopeItem]
    ensures { result.now ≡ take n items.now }
{
    &items[..n.min(items.len())]
}

fn items_from(items: &[ScopeItem], n: usize) -> &[ScopeItem]
    ensures { result.now ≡ drop n items.now }
{
    &items[n.min(items.len())..]
}

// The items that an ON may name: that of its own place, and those that it is joined with so far.
fn joined_items(items: &[ScopeItem], start: usize, last: usize) -> &[ScopeItem]
    ensures { result.now ≡ from.joined_items items.now start last }
{
    if last < items.len() {
        items_from(first_items(items, last + 1), start)
    } else {
        items_from(items, start)
    }
}

// The conditions of ON.
#[tactic(auto, using(crate::proofs::Joins::on_step))]
fn check_joins(
    alloc: Global,
    items: &[ScopeItem],
    params: &[Param],
    session: u32,
    tables: &[FromItem],
) -> Result<(), Refusal>
    ensures { IsAnswer result (or_first (from.condition_faults params.now session (from.on_conditions items.now 0 0 (map joined_tree tables.now))) tt) }
{
    let mut start = 0;
    for (place, table) in tables.iter().enumerate() {
        match &table.on {
            None => start = place,
            Some(on) => {
                let known = joined_items(items, start, place);
                check_condition(alloc, &condition_names(known, params, session), on)?;
            }
        }
    }
    Ok(())
}

/// The first fault of names and kinds in the conditions of ON and in that of WHERE.
#[tactic(auto, using(crate::proofs::Joins::faults_with))]
pub(crate) fn check_conditions(
    alloc: Global,
    items: &[ScopeItem],
    params: &[Param],
    session: u32,
    tables: &[FromItem],
    condition: &Option<Expr>,
) -> Result<(), Refusal>
    ensures { IsAnswer result (or_first (from.condition_faults params.now session (from.all_conditions items.now (map joined_tree tables.now) (maybe_tree condition.now))) tt) }
{
    check_joins(alloc, items, params, session, tables)?;
    match condition {
        None => Ok(()),
        Some(e) => check_condition(alloc, &condition_names(items, params, session), e),
    }
}

fn add(conds: &mut Vec<Cond>, cond: Cond) -> Result<(), NoMemory>
    ensures { OnOk result (conds.new.items ≡ conds.old.items ++ cond ∷ []) }
{
    conds.push(cond)?;
    Ok(())
}

#[tactic(auto, using(crate::proofs::Joins::on_step))]
fn bind_joins(
    alloc: Global,
    items: &[ScopeItem],
    params: &[Param],
    session: u32,
    tables: &[FromItem],
) -> Result<Vec<Cond>, Refusal>
    ensures { IsAnswerBy (λ v. map cond_tree v.items) result (or_first (from.condition_constants params.now session (from.on_conditions items.now 0 0 (map joined_tree tables.now))) (from.condition_meanings params.now session (from.on_conditions items.now 0 0 (map joined_tree tables.now)))) }
{
    let mut conds = Vec::new(alloc);
    let mut start = 0;
    for (place, table) in tables.iter().enumerate() {
        match &table.on {
            None => start = place,
            Some(on) => {
                let known = joined_items(items, start, place);
                let cond = bind_condition(alloc, &condition_names(known, params, session), on)?;
                add(&mut conds, cond)?;
            }
        }
    }
    Ok(conds)
}

/// The conditions of ON and that of WHERE, or the first fault of their constants.
#[tactic(auto, using(crate::proofs::Joins::constants_with, crate::proofs::Joins::meanings_with))]
pub(crate) fn bind_conditions(
    alloc: Global,
    items: &[ScopeItem],
    params: &[Param],
    session: u32,
    tables: &[FromItem],
    condition: &Option<Expr>,
) -> Result<Vec<Cond>, Refusal>
    ensures { IsAnswerBy (λ v. map cond_tree v.items) result (or_first (from.condition_constants params.now session (from.all_conditions items.now (map joined_tree tables.now) (maybe_tree condition.now))) (from.condition_meanings params.now session (from.all_conditions items.now (map joined_tree tables.now) (maybe_tree condition.now)))) }
{
    let mut conds = bind_joins(alloc, items, params, session, tables)?;
    match condition {
        None => Ok(conds),
        Some(e) => {
            let cond = bind_condition(alloc, &condition_names(items, params, session), e)?;
            add(&mut conds, cond)?;
            Ok(conds)
        }
    }
}
