ghost use Rattle.std.specs.Prelude.{◌≡◌, ◌-◌, ◌==◌, [], IfOk, map};
ghost use Rattle.std.specs.List.{list_any};
ghost use Rattle.cond_logic.specs.Scalars.{scalar_tree};
ghost use Rattle.cond_logic.specs.Trees.{cond_tree};
ghost use Rattle.history.specs.Waits as waits;
ghost use Rattle.select_answer.specs.Tuples as tuples;
ghost use Rattle.sql_ast.specs.Queries.{select_tree};
ghost use Rattle.cond_logic.specs.Asked.{output_tree, select_meant};
ghost use Rattle.select_statement.specs.Cancels as cancels;

use crate::parts::bind_custom;
use cond_logic::{Binding, Cond, Output, RowTables, Scalar, SelectAsk, Truth3, eval, scalar_value};
use expression_binder::Param;
use pg_values::{NoMemory, Refusal, Value};
use sql_ast::Select;
use std::alloc::Global;

fn session_of(sessions: u32, n: i32) -> Option<usize>
    ensures { result ≡ cancels.session_of sessions n }
{
    match usize::try_from(n) {
        Ok(n) => {
            if 1 <= n && n <= sessions as usize {
                Some(n)
            } else {
                None
            }
        }
        Err(_) => None,
    }
}

fn named(sessions: u32, number: &Value) -> Option<usize>
    ensures { result ≡ cancels.named sessions number.now }
{
    match number {
        Value::Int4(n) => session_of(sessions, *n),
        _ => None,
    }
}

// The session that an output cancels.
fn called(alloc: Global, value: &Scalar, sessions: u32) -> Result<Option<usize>, NoMemory>
    ensures { IfOk result (λ s. s ≡ cancels.called sessions (scalar_tree value.now)) }
{
    match value {
        Scalar::Cancel(number) => {
            let binding = Binding::new(&[]);
            match scalar_value(alloc, number, &binding, &RowTables::none(), sessions) {
                Ok(number) => Ok(named(sessions, &number)),
                Err(Refusal::Sql(_)) => Ok(None),
                Err(Refusal::NoMemory) => Err(NoMemory),
            }
        }
        Scalar::Column(_) | Scalar::Lit(_) | Scalar::TableName(_) | Scalar::Arith(_, _, _) => Ok(
            None,
        ),
    }
}

fn all_called(alloc: Global, outputs: &[Output], sessions: u32) -> Result<Vec<usize>, NoMemory>
    ensures { IfOk result (λ list. list.items ≡ cancels.all_called sessions (map output_tree outputs.now)) }
{
    let mut list = Vec::new(alloc);
    for output in outputs {
        if let Some(session) = called(alloc, &output.value, sessions)? {
            list.push(session)?;
        }
    }
    Ok(list)
}

fn pass(conditions: &[Cond]) -> bool
    ensures { result ≡ tuples.passes [] (map cond_tree conditions.now) tuples.no_tuple }
{
    let binding = Binding::new(&[]);
    for cond in conditions {
        if !matches!(eval(cond, &binding), Truth3::Yes) {
            return false;
        }
    }
    true
}

fn is_evaluated(ask: &SelectAsk) -> bool
    ensures { result ≡ cancels.is_evaluated (select_meant ask.now) }
{
    pass(ask.conditions.as_slice()) && ask.limit != Some(0)
}

// The sessions that a SELECT without FROM is to cancel, in text order.
fn asked(alloc: Global, ask: &SelectAsk, sessions: u32) -> Result<Vec<usize>, NoMemory>
    ensures { IfOk result (λ list. list.items ≡ cancels.asked sessions (select_meant ask.now)) }
{
    if is_evaluated(ask) {
        all_called(alloc, ask.outputs.as_slice(), sessions)
    } else {
        Ok(Vec::new(alloc))
    }
}

/// Whether the SELECT cancels itself.
pub(crate) fn cancels_itself(
    alloc: Global,
    ask: &SelectAsk,
    session: u32,
    sessions: u32,
) -> Result<bool, NoMemory>
    ensures { IfOk result (λ b. b ≡ cancels.cancels_itself session sessions (select_meant ask.now)) }
{
    let own = session as usize;
    Ok(asked(alloc, ask, sessions)?.iter().any(|x| *x == own))
}

// Those before the session's own number.
fn before(alloc: Global, session: usize, asked: &[usize]) -> Result<Vec<usize>, NoMemory>
    ensures { IfOk result (λ list. list.items ≡ waits.before session asked.now) }
{
    let mut list = Vec::new(alloc);
    for other in asked {
        if *other == session {
            return Ok(list);
        }
        list.push(*other)?;
    }
    Ok(list)
}

/// The sessions whose waits a SELECT of that session cancels with these arguments of its parameters, one after the
/// other, where there are so many beside the control session.
pub fn cancelled(
    alloc: Global,
    select: &Select,
    params: &[Param],
    session: u32,
    sessions: u32,
) -> Result<Vec<usize>, NoMemory>
    ensures { IfOk result (λ list. list.items ≡ cancels.cancelled params.now session sessions (select_tree select.now)) }
{
    if !select.from.as_slice().is_empty() {
        return Ok(Vec::new(alloc));
    }
    match bind_custom(alloc, select, &[], params, session) {
        Ok(ask) => before(alloc, session as usize, &asked(alloc, &ask, sessions)?),
        Err(Refusal::Sql(_)) => Ok(Vec::new(alloc)),
        Err(Refusal::NoMemory) => Err(NoMemory),
    }
}
