ghost use Rattle.std.specs.Prelude.{◌≡◌, None, IfOk, map, slice_index_or};
ghost use Rattle.sql_ast.specs.Expressions.{tree, trees, listed};
ghost use Rattle.sql_ast.specs.Queries.{row_tree};
ghost use Rattle.expression_binder.specs.Firsts.{IsAnswerBy};
ghost use Rattle.prepared_statements.specs.Parameters as parameters;
ghost use Rattle.prepared_statements.specs.Firsts.{noted, none_known};
ghost use Rattle.prepared_statements.specs.StatementPlaces.{statement_places};

use crate::changes::{note_delete, note_insert, note_update};
use crate::first_kinds::FirstKinds;
use crate::selects::note_select;
use expression_binder::{Given, Param, ScopeItem, condition_names, typed_of};
use pg_values::{Kind, NoMemory, Refusal};
use sql_ast::{Expr, ExprList, RowStatement};
use sql_binder::{Wanted, bind_arguments};
use std::alloc::Global;

#[tactic(auto, using(crate::proofs::Firsts::noted_none))]
fn note_statement(
    firsts: &mut FirstKinds,
    statement: &RowStatement,
    tables: &[ScopeItem],
    givens: &[Given],
)
    ensures { firsts.new ≡ noted firsts.old (statement_places tables.now givens.now (row_tree statement.now)) }
{
    match statement {
        RowStatement::Select(select) => note_select(firsts, select, tables, givens),
        RowStatement::Insert(insert) => {
            if let Some(item) = tables.first() {
                note_insert(firsts, insert, item.columns(), givens);
            }
        }
        RowStatement::Update(update) => {
            if let Some(item) = tables.first() {
                note_update(firsts, update, item, givens);
            }
        }
        RowStatement::Delete(delete) => {
            if let Some(item) = tables.first() {
                note_delete(firsts, delete, item, givens);
            }
        }
    }
}

/// The kinds that their first places in a statement give so many parameters. The tables of a SELECT are its
/// FROM items; any other statement has one.
pub fn kinds_in_statement(
    alloc: Global,
    statement: &RowStatement,
    tables: &[ScopeItem],
    givens: &[Given],
    count: usize,
) -> Result<Vec<Option<Kind>>, NoMemory>
    ensures { IfOk result (λ v. v.items ≡ noted (none_known count) (statement_places tables.now givens.now (row_tree statement.now))) }
{
    let mut firsts = FirstKinds::new(alloc, count)?;
    note_statement(&mut firsts, statement, tables, givens);
    Ok(firsts.kinds())
}

fn given_for(declared: Option<Kind>, e: &Expr) -> Given
    ensures { result ≡ parameters.given_for declared (tree e.now) }
{
    match declared {
        Some(kind) => Given::Of(kind),
        None => typed_of(&condition_names(&[], &[], 0), e).given,
    }
}

fn givens_of(
    alloc: Global,
    declared: &[Option<Kind>],
    arguments: &[Expr],
) -> Result<Vec<Given>, NoMemory>
    ensures { IfOk result (λ v. v.items ≡ parameters.givens_of declared.now (listed (map tree arguments.now))) }
{
    let mut givens = Vec::new(alloc);
    let mut kinds = declared;
    for e in arguments {
        match kinds.split_first() {
            None => return Ok(givens),
            Some((first, others)) => {
                givens.push(given_for(*first, e))?;
                kinds = others;
            }
        }
    }
    Ok(givens)
}

fn wanted_for(declared: Option<Kind>, placed: Option<Kind>) -> Wanted
    ensures { result ≡ parameters.wanted_for declared placed }
{
    match declared {
        Some(kind) => Wanted::Declared(kind),
        None => match placed {
            Some(kind) => Wanted::Placed(kind),
            None => Wanted::Free,
        },
    }
}

fn declared_kind(declared: &[Option<Kind>], place: usize) -> Option<Kind>
    ensures { result ≡ slice_index_or declared.now place None }
{
    match declared.get(place) {
        Some(kind) => *kind,
        None => None,
    }
}

#[tactic(auto, using(crate::proofs::Firsts::count_told))]
fn wanted_in(
    alloc: Global,
    statement: &RowStatement,
    tables: &[ScopeItem],
    declared: &[Option<Kind>],
    givens: &[Given],
) -> Result<Vec<Wanted>, NoMemory>
    ensures { IfOk result (λ v. v.items ≡ parameters.wanted_from (statement_places tables.now givens.now (row_tree statement.now)) 1 declared.now) }
{
    let placed = kinds_in_statement(alloc, statement, tables, givens, declared.len())?;
    let mut wanted = Vec::new(alloc);
    for place in 0..declared.len() {
        let own = declared_kind(declared, place);
        wanted.push(wanted_for(own, placed[place]))?;
    }
    Ok(wanted)
}

/// The parameters of a prepared statement with the arguments of its EXECUTE, or the first fault, as
/// `bind_arguments` tells it. There is one entry of `declared` for each parameter. A parameter has its
/// declared kind, else the kind of its argument; where that is a string literal or null, it has the kind
/// that the first of its places gives, else it is a text.
pub fn bind_parameters(
    alloc: Global,
    statement: &RowStatement,
    tables: &[ScopeItem],
    declared: &[Option<Kind>],
    arguments: &ExprList,
) -> Result<Vec<Param>, Refusal>
    ensures { IsAnswerBy (λ v. v.items) result (parameters.bound_parameters tables.now declared.now (row_tree statement.now) (trees arguments.now)) }
{
    let givens = givens_of(alloc, declared, arguments.as_slice())?;
    let wanted = wanted_in(alloc, statement, tables, declared, &givens)?;
    bind_arguments(alloc, arguments, &wanted)
}
