ghost use Rattle.std.specs.Prelude.{◌≡◌, ◌++◌, ◌∷◌, [], map, length, OnOk};
ghost use Rattle.pg_values.specs.Refusals.{IsAnswer};
ghost use Rattle.sql_ast.specs.Expressions.{tree, trees, listed};
ghost use Rattle.expression_binder.specs.Firsts.{or_first, fault_in, IsAnswerBy};
ghost use Rattle.expression_binder.specs.Kinds as kinds_spec;
ghost use Rattle.expression_binder.specs.Operands.{operand_faults, typed};
ghost use Rattle.sql_binder.specs.Arguments as arguments_of;
ghost use Rattle.sql_binder.specs.Arguments.{bound_arguments};
ghost use Rattle.sql_binder.specs.Inserts.{count_of};

use crate::inserts::{count_of, stored_value};
use expression_binder::{
    Given, Names, Param, check_assigned, check_count, check_operand, condition_names, kind_alone,
    typed_of,
};
use pg_values::{Kind, NoMemory, Refusal, Value};
use sql_ast::{Expr, ExprList};
use std::alloc::Global;

/// What is known of a parameter's kind before its argument comes: it is declared, or one of its places
/// in the statement gives it to a literal, or nothing does.
#[derive(Clone, Copy, Debug, PartialEq, Eq)]
pub enum Wanted {
    Declared(Kind),
    Placed(Kind),
    Free,
}

fn kind_for(wanted: Wanted, given: Given) -> Kind
    ensures { result ≡ arguments_of.kind_for wanted given }
{
    match wanted {
        Wanted::Declared(kind) => kind,
        Wanted::Placed(kind) => match given {
            Given::Of(own) => own,
            Given::Quoted => kind,
            Given::Nothing => kind,
        },
        Wanted::Free => kind_alone(given),
    }
}

fn check_declared(alloc: Global, wanted: Wanted, given: Given) -> Result<(), Refusal>
    ensures { IsAnswer result (or_first (arguments_of.declared_faults wanted given) tt) }
{
    match wanted {
        Wanted::Declared(kind) => check_assigned(alloc, kind, given),
        Wanted::Placed(_) => Ok(()),
        Wanted::Free => Ok(()),
    }
}

fn check_argument(alloc: Global, names: &Names<'_>, wanted: Wanted, e: &Expr) -> Result<(), Refusal>
    ensures { IsAnswer result (or_first (operand_faults names.now (tree e.now) ++ arguments_of.declared_faults wanted (typed names.now (tree e.now)).given) tt) }
{
    check_operand(alloc, names, e)?;
    check_declared(alloc, wanted, typed_of(names, e).given)
}

fn check_arguments(
    alloc: Global,
    names: &Names<'_>,
    kinds: &[Wanted],
    arguments: &[Expr],
) -> Result<(), Refusal>
    ensures { IsAnswer result (or_first (arguments_of.argument_faults names.now kinds.now (listed (map tree arguments.now))) tt) }
{
    let mut wanted = kinds;
    for e in arguments {
        match wanted.split_first() {
            None => return Ok(()),
            Some((first, others)) => {
                check_argument(alloc, names, *first, e)?;
                wanted = others;
            }
        }
    }
    Ok(())
}

fn argument_kind(names: &Names<'_>, wanted: Wanted, e: &Expr) -> Kind
    ensures { result ≡ arguments_of.argument_kind names.now wanted (tree e.now) }
{
    kind_for(wanted, typed_of(names, e).given)
}

fn argument_value(
    alloc: Global,
    names: &Names<'_>,
    wanted: Wanted,
    e: &Expr,
) -> Result<Value, Refusal>
    ensures { IsAnswer result (arguments_of.argument_value names.now wanted (tree e.now)) }
{
    stored_value(alloc, names, argument_kind(names, wanted, e), e)
}

fn add(params: &mut Vec<Param>, param: Param) -> Result<(), NoMemory>
    ensures { OnOk result (params.new.items ≡ params.old.items ++ param ∷ []) }
{
    params.push(param)?;
    Ok(())
}

fn add_argument(
    alloc: Global,
    names: &Names<'_>,
    params: &mut Vec<Param>,
    wanted: Wanted,
    e: &Expr,
) -> Result<(), Refusal>
    ensures told { IsAnswer result (or_first (fault_in (arguments_of.argument_value names.now wanted (tree e.now))) tt) }
    ensures made { OnOk result (params.new.items ≡ params.old.items ++ arguments_of.made_param (arguments_of.argument_kind names.now wanted (tree e.now)) (arguments_of.argument_value names.now wanted (tree e.now))) }
{
    let value = argument_value(alloc, names, wanted, e)?;
    let kind = argument_kind(names, wanted, e);
    Ok(add(params, Param { kind, value })?)
}

fn bind_each(
    alloc: Global,
    names: &Names<'_>,
    kinds: &[Wanted],
    arguments: &[Expr],
) -> Result<Vec<Param>, Refusal>
    ensures { IsAnswerBy (λ v. v.items) result (or_first (arguments_of.argument_constants names.now kinds.now (listed (map tree arguments.now))) (arguments_of.argument_params names.now kinds.now (listed (map tree arguments.now)))) }
{
    let mut params = Vec::new(alloc);
    let mut wanted = kinds;
    for e in arguments {
        match wanted.split_first() {
            None => return Ok(params),
            Some((first, others)) => {
                add_argument(alloc, names, &mut params, *first, e)?;
                wanted = others;
            }
        }
    }
    Ok(params)
}

fn check_and_bind(
    alloc: Global,
    names: &Names<'_>,
    wanted: &[Wanted],
    arguments: &[Expr],
) -> Result<Vec<Param>, Refusal>
    ensures { IsAnswerBy (λ v. v.items) result (or_first (arguments_of.argument_faults names.now wanted.now (listed (map tree arguments.now)) ++ arguments_of.argument_constants names.now wanted.now (listed (map tree arguments.now))) (arguments_of.argument_params names.now wanted.now (listed (map tree arguments.now)))) }
{
    check_arguments(alloc, names, wanted, arguments)?;
    bind_each(alloc, names, wanted, arguments)
}

/// The parameters of a prepared statement with the arguments of its EXECUTE, or the first fault. Their
/// count comes first: 42601. Then the names and kinds of the arguments, where columns, parameters and
/// calls have no place, and 42804 for one that its declared kind does not take. Then constants.
pub fn bind_arguments(
    alloc: Global,
    arguments: &ExprList,
    wanted: &[Wanted],
) -> Result<Vec<Param>, Refusal>
    ensures { IsAnswerBy (λ v. v.items) result (bound_arguments wanted.now (trees arguments.now)) }
{
    check_count(alloc, count_of(arguments), wanted.len())?;
    let names = condition_names(&[], &[], 0);
    check_and_bind(alloc, &names, wanted, arguments.as_slice())
}
