ghost use Rattle.std.specs.Prelude.{◌≡◌, [], Ok, IfOk, map};
ghost use Rattle.cond_logic.specs.Asked.{change_meant, maybe_cond, select_meant};
ghost use Rattle.cond_logic.specs.Rewriting.{with_args};
ghost use Rattle.cond_logic.specs.Trees.{cond_tree};
ghost use Rattle.sql_binder.specs.Values as values_in;
ghost use Rattle.sql_binder.specs.Values.{values_of, with_values, change_with_values};

use cond_logic::{ChangeAsk, Cond, SelectAsk, bind_params};
use expression_binder::Param;
use pg_values::{ListOf, NoMemory, Value, copy_value};
use std::alloc::Global;

/// The values of parameters, in order.
pub fn values_of(alloc: Global, params: &[Param]) -> Result<Vec<Value>, NoMemory>
    ensures { IfOk result (λ values. values.items ≡ values_of params.now) }
{
    let mut values = Vec::new(alloc);
    for param in params {
        values.push(copy_value(alloc, &param.value)?)?;
    }
    Ok(values)
}

fn put_in_each(alloc: Global, conds: &[Cond], values: &[Value]) -> Result<Vec<Cond>, NoMemory>
    ensures { IfOk result (λ put. map cond_tree put.items ≡ map (with_args values.now) (map cond_tree conds.now)) }
{
    let mut put = Vec::new(alloc);
    for cond in conds {
        put.push(bind_params(alloc, cond, values)?)?;
    }
    Ok(put)
}

fn put_in(alloc: Global, cond: &Option<Cond>, values: &[Value]) -> Result<Option<Cond>, NoMemory>
    ensures { IfOk result (λ put. maybe_cond put ≡ values_in.condition_with values.now (maybe_cond cond.now)) }
{
    match cond {
        None => Ok(None),
        Some(cond) => Ok(Some(bind_params(alloc, cond, values)?)),
    }
}

/// The SELECT with the values of its parameters in their places, as a custom plan is made of it. One without
/// parameters is handed back. Fails only for want of memory.
pub fn put_values(alloc: Global, ask: SelectAsk, params: &[Param]) -> Result<SelectAsk, NoMemory>
    ensures values { IfOk result (λ put. select_meant put ≡ with_values (values_of params.now) (select_meant ask)) }
    ensures same { params.now ≡ [] → result ≡ Ok ask }
{
    if params.is_empty() {
        return Ok(ask);
    }
    let values = values_of(alloc, params)?;
    let conditions = put_in_each(alloc, ask.conditions.as_slice(), &values)?;
    Ok(SelectAsk {
        conditions: ListOf::from_vec(conditions),
        ..ask
    })
}

/// The UPDATE or the DELETE likewise.
pub fn put_change_values(
    alloc: Global,
    ask: ChangeAsk,
    params: &[Param],
) -> Result<ChangeAsk, NoMemory>
    ensures values { IfOk result (λ put. change_meant put ≡ change_with_values (values_of params.now) (change_meant ask)) }
    ensures same { params.now ≡ [] → result ≡ Ok ask }
{
    if params.is_empty() {
        return Ok(ask);
    }
    let values = values_of(alloc, params)?;
    let condition = put_in(alloc, &ask.condition, &values)?;
    Ok(ChangeAsk { condition, ..ask })
}
