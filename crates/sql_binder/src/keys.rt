ghost use Rattle.std.specs.Prelude.{◌≡◌, ◌++◌, ◌∷◌, [], map, OnOk, codes};
ghost use Rattle.pg_values.specs.Refusals.{IsAnswer};
ghost use Rattle.refusals.specs.Refusals as refusals;
ghost use Rattle.sql_ast.specs.Expressions.{tree, leaf as leaf_tree};
ghost use Rattle.sql_ast.specs.Queries.{key_tree};
ghost use Rattle.expression_binder.specs.Conditions.{cond_faults};
ghost use Rattle.expression_binder.specs.Firsts.{or_first, IsAnswerBy};
ghost use Rattle.expression_binder.specs.Lent.{option_now};
ghost use Rattle.expression_binder.specs.Operands.{operand_faults};
ghost use Rattle.sql_binder.specs.Keys as keys;
ghost use Rattle.sql_binder.specs.Known.{scope_of, outputs_of};

use crate::key_names::KeyNames;
use cond_logic::{SortBy, SortKey};
use expression_binder::{
    Lookup, Names, ScopeItem, check_condition, check_look_up, check_operand, is_arithmetic,
    item_called, look_up, look_up_in,
};
use pg_values::{NoMemory, Refusal};
use refusals::{ambiguous, left_out, no_output, out_of_range};
use sql_ast::{Expr, Leaf, SortKey as Key};
use std::alloc::Global;

/// The output columns that have a name.
#[derive(Clone, Copy, Debug, PartialEq, Eq)]
pub enum Named {
    Missing,
    One(usize),
    Several,
}

fn check_name(alloc: Global, known: &KeyNames<'_>, name: &[u8]) -> Result<(), Refusal>
    ensures { IsAnswer result (or_first (keys.name_faults (scope_of known.now) name.now (keys.output_named (scope_of known.now).items name.now 0 (outputs_of known.now))) tt) }
{
    match known.output_named(name) {
        Named::Missing => check_look_up(alloc, name, look_up(known.names().items(), name)),
        Named::One(_) => Ok(()),
        Named::Several => Err(Refusal::Sql(ambiguous(alloc, name)?)),
    }
}

fn check_position(alloc: Global, n: u64, count: usize) -> Result<(), Refusal>
    ensures { IsAnswer result (or_first (keys.position_faults n count) tt) }
{
    if !(n <= 9_223_372_036_854_775_807) || (1 <= n && n <= count as u64) {
        return Ok(());
    }
    Err(Refusal::Sql(no_output(alloc, n)?))
}

fn check_other(alloc: Global, names: &Names<'_>, e: &Expr) -> Result<(), Refusal>
    ensures { IsAnswer result (or_first (operand_faults names.now (tree e.now) ++ refusals.left_out (codes "ORDER") ∷ []) tt) }
{
    check_operand(alloc, names, e)?;
    Err(Refusal::Sql(left_out(alloc, b"ORDER")?))
}

fn check_as_condition(alloc: Global, names: &Names<'_>, e: &Expr) -> Result<(), Refusal>
    ensures { IsAnswer result (or_first (cond_faults names.now (tree e.now) ++ refusals.left_out (codes "ORDER") ∷ []) tt) }
{
    check_condition(alloc, names, e)?;
    Err(Refusal::Sql(left_out(alloc, b"ORDER")?))
}

fn check_leaf(alloc: Global, known: &KeyNames<'_>, e: &Expr, leaf: &Leaf) -> Result<(), Refusal>
    requires { tree e.now ≡ leaf_tree leaf.now }
    ensures { IsAnswer result (or_first (keys.key_faults (scope_of known.now) (outputs_of known.now) (leaf_tree leaf.now)) tt) }
{
    let names = known.names();
    match leaf {
        Leaf::Number(n) => check_position(alloc, *n, known.count()),
        Leaf::Column(name) => check_name(alloc, known, name.as_bytes()),
        Leaf::ColumnOf(_, _) => check_operand(alloc, names, e),
        Leaf::TableName => check_operand(alloc, names, e),
        Leaf::TableNameOf(_) => check_operand(alloc, names, e),
        Leaf::Text(_) => check_other(alloc, names, e),
        Leaf::Date(_) => check_other(alloc, names, e),
        Leaf::Null => check_other(alloc, names, e),
        Leaf::Truth(_) => check_other(alloc, names, e),
        Leaf::Parameter(_) => check_other(alloc, names, e),
    }
}

fn check_key(alloc: Global, known: &KeyNames<'_>, e: &Expr) -> Result<(), Refusal>
    ensures { IsAnswer result (or_first (keys.key_faults (scope_of known.now) (outputs_of known.now) (tree e.now)) tt) }
{
    let names = known.names();
    match e {
        Expr::Leaf(leaf) => check_leaf(alloc, known, e, leaf),
        Expr::Call(_, _) => check_other(alloc, names, e),
        Expr::CallOfAll(_) => check_other(alloc, names, e),
        Expr::Negated(_) => check_other(alloc, names, e),
        Expr::Binary(operator, _, _) => {
            if is_arithmetic(*operator) {
                check_other(alloc, names, e)
            } else {
                check_as_condition(alloc, names, e)
            }
        }
        Expr::In(_, _, _) => check_as_condition(alloc, names, e),
        Expr::Between(_, _, _, _) => check_as_condition(alloc, names, e),
        Expr::IsNull(_, _) => check_as_condition(alloc, names, e),
        Expr::Not(_) => check_as_condition(alloc, names, e),
        Expr::And(_) => check_as_condition(alloc, names, e),
        Expr::Or(_) => check_as_condition(alloc, names, e),
    }
}

/// The first fault of names and kinds in ORDER BY: 42702, 42703, 42P10, or 0A000 for a key that is
/// computed.
pub(crate) fn check_keys(alloc: Global, known: &KeyNames<'_>, order: &[Key]) -> Result<(), Refusal>
    ensures { IsAnswer result (or_first (keys.keys_faults (scope_of known.now) (outputs_of known.now) (map key_tree order.now)) tt) }
{
    for key in order {
        check_key(alloc, known, &key.value)?;
    }
    Ok(())
}

fn check_constant(alloc: Global, e: &Expr) -> Result<(), Refusal>
    ensures { IsAnswer result (or_first (keys.key_constants (tree e.now)) tt) }
{
    match e {
        Expr::Leaf(Leaf::Number(n)) => {
            if *n <= 9_223_372_036_854_775_807 {
                return Ok(());
            }
            Err(Refusal::Sql(out_of_range(alloc)))
        }
        _ => Ok(()),
    }
}

fn by_column(found: Lookup) -> SortBy
    ensures { result ≡ keys.by_column found }
{
    match found {
        Lookup::Missing => SortBy::Output(0),
        Lookup::One(hit) => SortBy::Column(hit.column),
        Lookup::Several => SortBy::Output(0),
    }
}

fn by_name(known: &KeyNames<'_>, name: &[u8]) -> SortBy
    ensures { result ≡ keys.by_name (scope_of known.now) name.now (keys.output_named (scope_of known.now).items name.now 0 (outputs_of known.now)) }
{
    match known.output_named(name) {
        Named::Missing => by_column(look_up(known.names().items(), name)),
        Named::One(place) => SortBy::Output(place),
        Named::Several => SortBy::Output(0),
    }
}

fn by_row_table(items: &[ScopeItem]) -> SortBy
    ensures { result ≡ keys.by_row_table items.now }
{
    match items.first() {
        None => SortBy::Output(0),
        Some(item) => SortBy::TableName(item.number()),
    }
}

fn by_item_table(item: Option<&ScopeItem>) -> SortBy
    ensures { result ≡ keys.by_item_table (option_now item.entry) }
{
    match item {
        None => SortBy::Output(0),
        Some(item) => SortBy::TableName(item.number()),
    }
}

fn leaf_by(known: &KeyNames<'_>, leaf: &Leaf) -> SortBy
    ensures { result ≡ keys.key_by (scope_of known.now) (outputs_of known.now) (leaf_tree leaf.now) }
{
    let items = known.names().items();
    match leaf {
        Leaf::Number(n) => SortBy::Output(n.saturating_sub(1) as usize),
        Leaf::Column(name) => by_name(known, name.as_bytes()),
        Leaf::ColumnOf(table, name) => {
            by_column(look_up_in(items, table.as_bytes(), name.as_bytes()))
        }
        Leaf::TableName => by_row_table(items),
        Leaf::TableNameOf(table) => by_item_table(item_called(items, table.as_bytes())),
        Leaf::Text(_) => SortBy::Output(0),
        Leaf::Date(_) => SortBy::Output(0),
        Leaf::Null => SortBy::Output(0),
        Leaf::Truth(_) => SortBy::Output(0),
        Leaf::Parameter(_) => SortBy::Output(0),
    }
}

fn key_by(known: &KeyNames<'_>, e: &Expr) -> SortBy
    ensures { result ≡ keys.key_by (scope_of known.now) (outputs_of known.now) (tree e.now) }
{
    match e {
        Expr::Leaf(leaf) => leaf_by(known, leaf),
        Expr::Call(_, _) => SortBy::Output(0),
        Expr::CallOfAll(_) => SortBy::Output(0),
        Expr::Negated(_) => SortBy::Output(0),
        Expr::Binary(_, _, _) => SortBy::Output(0),
        Expr::In(_, _, _) => SortBy::Output(0),
        Expr::Between(_, _, _, _) => SortBy::Output(0),
        Expr::IsNull(_, _) => SortBy::Output(0),
        Expr::Not(_) => SortBy::Output(0),
        Expr::And(_) => SortBy::Output(0),
        Expr::Or(_) => SortBy::Output(0),
    }
}

fn sort_key(known: &KeyNames<'_>, key: &Key) -> SortKey
    ensures { result ≡ keys.sort_key (scope_of known.now) (outputs_of known.now) (key_tree key.now) }
{
    SortKey {
        by: key_by(known, &key.value),
        descending: key.descending,
        nulls_first: key.nulls_first,
    }
}

fn add(sort: &mut Vec<SortKey>, key: SortKey) -> Result<(), NoMemory>
    ensures { OnOk result (sort.new.items ≡ sort.old.items ++ key ∷ []) }
{
    sort.push(key)?;
    Ok(())
}

/// What rows are sorted by, or the first fault of a constant of ORDER BY: 22003.
pub(crate) fn bind_keys(
    alloc: Global,
    known: &KeyNames<'_>,
    order: &[Key],
) -> Result<Vec<SortKey>, Refusal>
    ensures { IsAnswerBy (λ v. v.items) result (or_first (keys.keys_constants (map key_tree order.now)) (keys.sort_keys (scope_of known.now) (outputs_of known.now) (map key_tree order.now))) }
{
    let mut sort = Vec::new(alloc);
    for key in order {
        check_constant(alloc, &key.value)?;
        add(&mut sort, sort_key(known, key))?;
    }
    Ok(sort)
}
