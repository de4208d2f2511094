ghost use Rattle.std.specs.Prelude.{◌≡◌, ◌++◌, ◌∷◌, [], map, OnOk};
ghost use Rattle.std.specs.List.{list_any};
ghost use Rattle.std.specs.Str.{bytes_eq};
ghost use Rattle.pg_values.specs.Refusals.{IsAnswer};
ghost use Rattle.sql_ast.specs.Expressions.{tree};
ghost use Rattle.sql_ast.specs.Queries.{maybe_tree, setting};
ghost use Rattle.cond_logic.specs.Scalars.{scalar_tree};
ghost use Rattle.expression_binder.specs.Constants.{as_literal as literal_of};
ghost use Rattle.expression_binder.specs.Firsts.{or_first, fault_in, IsAnswerBy};
ghost use Rattle.expression_binder.specs.Kinds.{assigned_faults};
ghost use Rattle.expression_binder.specs.Operands.{operand_faults, typed};
ghost use Rattle.sql_binder.specs.Changes as changes;
ghost use Rattle.sql_binder.specs.Changes.{bound_change};
ghost use Rattle.sql_binder.specs.Inserts as inserts;
ghost use Rattle.cond_logic.specs.Asked.{change_meant, maybe_cond, setting_meant};

use crate::inserts::{check_target, check_value, kind_at, place_in};
use cond_logic::{ChangeAsk, Cond, Scalar, Setting};
use expression_binder::{
    Allowed, Names, Param, ScopeItem, bind_condition, bind_scalar, check_condition,
    condition_names, store,
};
use pg_values::{Kind, ListOf, NoMemory, Refusal};
use sql_ast::{Assignment, Delete, Expr, Update};
use std::alloc::Global;
use std::slice::from_ref;

fn set_scope<'a>(item: &'a ScopeItem, params: &'a [Param], session: u32) -> Names<'a>
    ensures { result ≡ changes.set_scope item.now params.now session }
{
    let allowed = Allowed {
        arithmetic: true,
        table_names: false,
        calls: false,
    };
    Names::new(from_ref(item), params, session, allowed)
}

fn where_scope<'a>(item: &'a ScopeItem, params: &'a [Param], session: u32) -> Names<'a>
    ensures { result ≡ changes.where_scope item.now params.now session }
{
    condition_names(from_ref(item), params, session)
}

// ---- SET

fn set_kind(item: &ScopeItem, name: &[u8]) -> Kind
    ensures { result ≡ changes.set_kind item.now name.now }
{
    kind_at(item.columns(), place_in(item.columns(), name))
}

fn is_set(earlier: &[Assignment], name: &[u8]) -> bool
    ensures { result ≡ list_any (bytes_eq name.now) (map changes.column_set (map setting earlier.now)) }
{
    for assignment in earlier {
        if name == assignment.column.as_bytes() {
            return true;
        }
    }
    false
}

fn check_new_value(
    alloc: Global,
    item: &ScopeItem,
    names: &Names<'_>,
    assignment: &Assignment,
) -> Result<(), Refusal>
    ensures { IsAnswer result (or_first (operand_faults names.now (tree assignment.now.value) ++ assigned_faults (changes.set_kind item.now assignment.now.column) (typed names.now (tree assignment.now.value)).given) tt) }
{
    let kind = set_kind(item, assignment.column.as_bytes());
    check_value(alloc, names, kind, &assignment.value)
}

fn check_setting(
    alloc: Global,
    item: &ScopeItem,
    names: &Names<'_>,
    earlier: &[Assignment],
    assignment: &Assignment,
) -> Result<(), Refusal>
    ensures { IsAnswer result (or_first (changes.setting_faults item.now names.now (map changes.column_set (map setting earlier.now)) (setting assignment.now)) tt) }
{
    let name = assignment.column.as_bytes();
    check_target(alloc, item.columns(), is_set(earlier, name), name)?;
    check_new_value(alloc, item, names, assignment)
}

#[tactic(auto, using(crate::proofs::EarlierColumns::setting_step))]
fn check_settings(
    alloc: Global,
    item: &ScopeItem,
    names: &Names<'_>,
    settings: &[Assignment],
) -> Result<(), Refusal>
    ensures { IsAnswer result (or_first (changes.settings_faults item.now names.now [] (map setting settings.now)) tt) }
{
    for (place, assignment) in settings.iter().enumerate() {
        check_setting(alloc, item, names, &settings[..place], assignment)?;
    }
    Ok(())
}

// A constant is stored at once, anything else for each row.
fn store_scalar(alloc: Global, kind: Kind, x: Scalar) -> Result<Scalar, Refusal>
    ensures { IsAnswerBy scalar_tree result (changes.stored_as kind (scalar_tree x) (literal_of (scalar_tree x))) }
{
    match x {
        Scalar::Lit(value) => Ok(Scalar::Lit(store(alloc, kind, value)?)),
        Scalar::Column(_) => Ok(x),
        Scalar::TableName(_) => Ok(x),
        Scalar::Arith(_, _, _) => Ok(x),
        Scalar::Cancel(_) => Ok(x),
    }
}

fn new_value(
    alloc: Global,
    item: &ScopeItem,
    names: &Names<'_>,
    assignment: &Assignment,
) -> Result<Scalar, Refusal>
    ensures { IsAnswerBy scalar_tree result (changes.new_value item.now names.now (setting assignment.now)) }
{
    let kind = set_kind(item, assignment.column.as_bytes());
    let x = bind_scalar(alloc, names, kind, &assignment.value)?;
    store_scalar(alloc, kind, x)
}

fn bind_setting(
    alloc: Global,
    item: &ScopeItem,
    names: &Names<'_>,
    assignment: &Assignment,
) -> Result<Setting, Refusal>
    ensures { IsAnswerBy (λ s. setting_meant s ∷ []) result (or_first (fault_in (changes.new_value item.now names.now (setting assignment.now))) (changes.meant_if (inserts.place_or (inserts.place_of item.now.columns assignment.now.column)) (changes.new_value item.now names.now (setting assignment.now)))) }
{
    let value = new_value(alloc, item, names, assignment)?;
    Ok(Setting {
        column: place_in(item.columns(), assignment.column.as_bytes()),
        value,
    })
}

fn add(settings: &mut Vec<Setting>, setting: Setting) -> Result<(), NoMemory>
    ensures { OnOk result (map setting_meant settings.new.items ≡ map setting_meant settings.old.items ++ setting_meant setting ∷ []) }
{
    settings.push(setting)?;
    Ok(())
}

fn bind_settings(
    alloc: Global,
    item: &ScopeItem,
    names: &Names<'_>,
    settings: &[Assignment],
) -> Result<Vec<Setting>, Refusal>
    ensures { IsAnswerBy (λ v. map setting_meant v.items) result (or_first (changes.settings_constants item.now names.now (map setting settings.now)) (changes.settings_meant item.now names.now (map setting settings.now))) }
{
    let mut made = Vec::new(alloc);
    for assignment in settings {
        let setting = bind_setting(alloc, item, names, assignment)?;
        add(&mut made, setting)?;
    }
    Ok(made)
}

// ---- WHERE

fn check_where(alloc: Global, names: &Names<'_>, condition: &Option<Expr>) -> Result<(), Refusal>
    ensures { IsAnswer result (or_first (changes.where_faults names.now (maybe_tree condition.now)) tt) }
{
    match condition {
        None => Ok(()),
        Some(e) => check_condition(alloc, names, e),
    }
}

fn bind_where(
    alloc: Global,
    names: &Names<'_>,
    condition: &Option<Expr>,
) -> Result<Option<Cond>, Refusal>
    ensures { IsAnswerBy maybe_cond result (or_first (changes.where_constants names.now (maybe_tree condition.now)) (changes.where_meaning names.now (maybe_tree condition.now))) }
{
    match condition {
        None => Ok(None),
        Some(e) => Ok(Some(bind_condition(alloc, names, e)?)),
    }
}

// ---- the statements

fn check_change(
    alloc: Global,
    item: &ScopeItem,
    in_set: &Names<'_>,
    in_where: &Names<'_>,
    settings: &[Assignment],
    condition: &Option<Expr>,
) -> Result<(), Refusal>
    ensures { IsAnswer result (or_first (changes.settings_faults item.now in_set.now [] (map setting settings.now) ++ changes.where_faults in_where.now (maybe_tree condition.now)) tt) }
{
    check_settings(alloc, item, in_set, settings)?;
    check_where(alloc, in_where, condition)
}

fn bind_parts(
    alloc: Global,
    item: &ScopeItem,
    in_set: &Names<'_>,
    in_where: &Names<'_>,
    settings: &[Assignment],
    condition: &Option<Expr>,
) -> Result<ChangeAsk, Refusal>
    ensures { IsAnswerBy change_meant result (or_first (changes.settings_constants item.now in_set.now (map setting settings.now) ++ changes.where_constants in_where.now (maybe_tree condition.now)) (record { settings = changes.settings_meant item.now in_set.now (map setting settings.now); condition = changes.where_meaning in_where.now (maybe_tree condition.now) })) }
{
    let settings = bind_settings(alloc, item, in_set, settings)?;
    let condition = bind_where(alloc, in_where, condition)?;
    Ok(ChangeAsk {
        settings: ListOf::from_vec(settings),
        condition,
    })
}

fn bind_change(
    alloc: Global,
    item: &ScopeItem,
    params: &[Param],
    session: u32,
    settings: &[Assignment],
    condition: &Option<Expr>,
) -> Result<ChangeAsk, Refusal>
    ensures { IsAnswerBy change_meant result (bound_change item.now params.now session (map setting settings.now) (maybe_tree condition.now)) }
{
    let in_set = set_scope(item, params, session);
    let in_where = where_scope(item, params, session);
    check_change(alloc, item, &in_set, &in_where, settings, condition)?;
    bind_parts(alloc, item, &in_set, &in_where, settings, condition)
}

/// The UPDATE by places and values, of a table that is the item; or its first fault. For each column of
/// SET: 42703, 42601 for one that is set twice, then the names and kinds of its value, and 42804. Then
/// those of WHERE. Then constants in the same order.
pub fn bind_update(
    alloc: Global,
    update: &Update,
    item: &ScopeItem,
    params: &[Param],
    session: u32,
) -> Result<ChangeAsk, Refusal>
    ensures { IsAnswerBy change_meant result (bound_change item.now params.now session (map setting update.now.assignments) (maybe_tree update.now.condition)) }
{
    let settings = update.assignments.as_slice();
    bind_change(alloc, item, params, session, settings, &update.condition)
}

/// The DELETE by places and values, or the first fault of its condition.
pub fn bind_delete(
    alloc: Global,
    delete: &Delete,
    item: &ScopeItem,
    params: &[Param],
    session: u32,
) -> Result<ChangeAsk, Refusal>
    ensures { IsAnswerBy change_meant result (bound_change item.now params.now session [] (maybe_tree delete.now.condition)) }
{
    bind_change(alloc, item, params, session, &[], &delete.condition)
}
