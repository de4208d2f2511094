ghost use Rattle.std.specs.Prelude.{◌≡◌, ◌++◌, ◌∷◌, [], map, IfOk, OnOk};
ghost use Rattle.pg_values.specs.Refusals.{IsAnswer};
ghost use Rattle.sql_ast.specs.Expressions.{tree};
ghost use Rattle.sql_ast.specs.Queries.{Output as Written, item_tree};
ghost use Rattle.cond_logic.specs.Scalars as scalars;
ghost use Rattle.expression_binder.specs.Firsts.{or_first, fault_in, IsAnswerBy};
ghost use Rattle.expression_binder.specs.Kinds as kinds;
ghost use Rattle.expression_binder.specs.Operands.{typed};
ghost use Rattle.expression_binder.specs.Scopes as scopes;
ghost use Rattle.sql_binder.specs.Items as items_of;
ghost use Rattle.sql_binder.specs.Lent.{heading};
ghost use Rattle.cond_logic.specs.Asked.{output_tree};

use crate::heading::Heading;
use cond_logic::{ColumnId, Output, Scalar};
use expression_binder::{
    Allowed, Names, ScopeColumn, ScopeItem, bind_scalar, check_item, check_operand, item_called,
    kind_alone, typed_of,
};
use pg_values::{NoMemory, PgText, Refusal};
use refusals::left_out;
use sql_ast::{Expr, Leaf, SelectItem};
use std::alloc::Global;

/// What may stand in a select list.
pub(crate) fn in_a_select_list(items: &[ScopeItem]) -> Allowed
    ensures { result ≡ items_of.in_a_select_list items.now }
{
    Allowed {
        arithmetic: true,
        table_names: true,
        calls: items.is_empty(),
    }
}

fn check_star(alloc: Global, items: &[ScopeItem]) -> Result<(), Refusal>
    ensures { IsAnswer result (or_first (items_of.star_faults items.now) tt) }
{
    if items.is_empty() {
        return Err(Refusal::Sql(left_out(alloc, b"*")?));
    }
    Ok(())
}

fn check_listed(alloc: Global, names: &Names<'_>, listed: &SelectItem) -> Result<(), Refusal>
    ensures { IsAnswer result (or_first (items_of.listed_faults names.now (item_tree listed.now)) tt) }
{
    match listed {
        SelectItem::All => check_star(alloc, names.items()),
        SelectItem::AllOf(table) => check_item(alloc, names.items(), table.as_bytes()),
        SelectItem::Output(e, _) => check_operand(alloc, names, e),
    }
}

/// The first fault of names and kinds in a select list.
pub(crate) fn check_list(
    alloc: Global,
    names: &Names<'_>,
    list: &[SelectItem],
) -> Result<(), Refusal>
    ensures { IsAnswer result (or_first (items_of.list_faults names.now (map item_tree list.now)) tt) }
{
    for listed in list {
        check_listed(alloc, names, listed)?;
    }
    Ok(())
}

// ---- headings

fn leaf_name(leaf: &Leaf) -> &[u8]
    ensures { result.now ≡ items_of.leaf_name leaf.now }
{
    match leaf {
        Leaf::Column(name) => name.as_bytes(),
        Leaf::ColumnOf(_, name) => name.as_bytes(),
        Leaf::TableName => b"tableoid",
        Leaf::TableNameOf(_) => b"tableoid",
        _ => b"?column?",
    }
}

fn own_name(e: &Expr) -> &[u8]
    ensures { result.now ≡ items_of.own_name (tree e.now) }
{
    match e {
        Expr::Leaf(leaf) => leaf_name(leaf),
        Expr::Call(function, _) => function.as_bytes(),
        Expr::CallOfAll(function) => function.as_bytes(),
        Expr::Negated(_) => b"?column?",
        Expr::Binary(_, _, _) => b"?column?",
        Expr::In(_, _, _) => b"?column?",
        Expr::Between(_, _, _, _) => b"?column?",
        Expr::IsNull(_, _) => b"?column?",
        Expr::Not(_) => b"?column?",
        Expr::And(_) => b"?column?",
        Expr::Or(_) => b"?column?",
    }
}

fn output_name<'a>(e: &'a Expr, alias: &'a Option<PgText>) -> &'a [u8]
    ensures { result.now ≡ items_of.output_name (tree e.now) alias.now }
{
    match alias {
        None => own_name(e),
        Some(alias) => alias.as_bytes(),
    }
}

fn add_heading<'a>(headings: &mut Vec<Heading<'a>>, one: Heading<'a>) -> Result<(), NoMemory>
    ensures { OnOk result (map heading headings.new.items ≡ map heading headings.old.items ++ heading one.entry ∷ []) }
{
    headings.push(one)?;
    Ok(())
}

fn add_item_headings<'a>(
    alloc: Global,
    headings: &mut Vec<Heading<'a>>,
    item: &'a ScopeItem,
) -> Result<(), NoMemory>
    ensures { OnOk result (map heading headings.new.items ≡ map heading headings.old.items ++ items_of.item_headings item.now) }
{
    let columns = item.columns();
    for column in columns {
        add_heading(headings, Heading::of_column(alloc, item.name(), column)?)?;
    }
    Ok(())
}

fn add_all_headings<'a>(
    alloc: Global,
    headings: &mut Vec<Heading<'a>>,
    items: &'a [ScopeItem],
) -> Result<(), NoMemory>
    ensures { OnOk result (map heading headings.new.items ≡ map heading headings.old.items ++ items_of.all_headings items.now) }
{
    for item in items {
        add_item_headings(alloc, headings, item)?;
    }
    Ok(())
}

fn add_headings_of<'a>(
    alloc: Global,
    headings: &mut Vec<Heading<'a>>,
    items: &'a [ScopeItem],
    table: &[u8],
) -> Result<(), NoMemory>
    ensures { OnOk result (map heading headings.new.items ≡ map heading headings.old.items ++ items_of.headings_of (scopes.item_called items.now table.now)) }
{
    match item_called(items, table) {
        None => Ok(()),
        Some(item) => add_item_headings(alloc, headings, item),
    }
}

fn add_written<'a>(
    headings: &mut Vec<Heading<'a>>,
    e: &'a Expr,
    alias: &'a Option<PgText>,
) -> Result<(), NoMemory>
    ensures { OnOk result (map heading headings.new.items ≡ map heading headings.old.items ++ record { name = items_of.output_name (tree e.now) alias.now; value = tree e.now } ∷ []) }
{
    add_heading(headings, Heading::of_expression(output_name(e, alias), e))
}

fn add_listed_headings<'a>(
    alloc: Global,
    headings: &mut Vec<Heading<'a>>,
    items: &'a [ScopeItem],
    listed: &'a SelectItem,
) -> Result<(), NoMemory>
    ensures { OnOk result (map heading headings.new.items ≡ map heading headings.old.items ++ items_of.listed_headings items.now (item_tree listed.now)) }
{
    match listed {
        SelectItem::All => add_all_headings(alloc, headings, items),
        SelectItem::AllOf(table) => add_headings_of(alloc, headings, items, table.as_bytes()),
        SelectItem::Output(e, alias) => add_written(headings, e, alias),
    }
}

/// The output columns as ORDER BY finds them.
pub(crate) fn output_headings<'a>(
    alloc: Global,
    items: &'a [ScopeItem],
    list: &'a [SelectItem],
) -> Result<Vec<Heading<'a>>, NoMemory>
    ensures { IfOk result (λ hs. map heading hs.items ≡ items_of.list_headings items.now (map item_tree list.now)) }
{
    let mut headings = Vec::new(alloc);
    for listed in list {
        add_listed_headings(alloc, &mut headings, items, listed)?;
    }
    Ok(headings)
}

// ---- output columns

fn add(outputs: &mut Vec<Output>, output: Output) -> Result<(), NoMemory>
    ensures { OnOk result (map output_tree outputs.new.items ≡ map output_tree outputs.old.items ++ output_tree output ∷ []) }
{
    outputs.push(output)?;
    Ok(())
}

fn column_output(
    alloc: Global,
    item: u32,
    position: usize,
    column: &ScopeColumn,
) -> Result<Output, NoMemory>
    ensures { IfOk result (λ o. output_tree o ≡ record { name = column.now.name; kind = column.now.kind; value = scalars.column (record { item = item; position = position }) }) }
{
    Ok(Output {
        name: PgText::from_bytes(alloc, column.name.as_bytes())?,
        kind: column.kind,
        value: Scalar::Column(ColumnId { item, position }),
    })
}

fn add_outputs(alloc: Global, outputs: &mut Vec<Output>, item: &ScopeItem) -> Result<(), NoMemory>
    ensures { OnOk result (map output_tree outputs.new.items ≡ map output_tree outputs.old.items ++ items_of.item_outputs item.now) }
{
    let columns = item.columns();
    for (position, column) in columns.iter().enumerate() {
        let output = column_output(alloc, item.number(), position, column)?;
        add(outputs, output)?;
    }
    Ok(())
}

fn add_all_outputs(
    alloc: Global,
    outputs: &mut Vec<Output>,
    items: &[ScopeItem],
) -> Result<(), NoMemory>
    ensures { OnOk result (map output_tree outputs.new.items ≡ map output_tree outputs.old.items ++ items_of.all_outputs items.now) }
{
    for item in items {
        add_outputs(alloc, outputs, item)?;
    }
    Ok(())
}

fn add_outputs_of(
    alloc: Global,
    outputs: &mut Vec<Output>,
    items: &[ScopeItem],
    table: &[u8],
) -> Result<(), NoMemory>
    ensures { OnOk result (map output_tree outputs.new.items ≡ map output_tree outputs.old.items ++ items_of.outputs_of (scopes.item_called items.now table.now)) }
{
    match item_called(items, table) {
        None => Ok(()),
        Some(item) => add_outputs(alloc, outputs, item),
    }
}

fn bind_output(
    alloc: Global,
    names: &Names<'_>,
    e: &Expr,
    alias: &Option<PgText>,
) -> Result<Output, Refusal>
    ensures { IsAnswerBy (λ o. output_tree o ∷ []) result (or_first (fault_in (items_of.output_scalar names.now (tree e.now))) (items_of.made_output (items_of.output_name (tree e.now) alias.now) (kinds.kind_alone (typed names.now (tree e.now)).given) (items_of.output_scalar names.now (tree e.now)))) }
{
    let kind = kind_alone(typed_of(names, e).given);
    let value = bind_scalar(alloc, names, kind, e)?;
    let name = PgText::from_bytes(alloc, output_name(e, alias))?;
    Ok(Output { name, kind, value })
}

fn bind_listed(
    alloc: Global,
    names: &Names<'_>,
    outputs: &mut Vec<Output>,
    listed: &SelectItem,
) -> Result<(), Refusal>
    ensures told { IsAnswer result (or_first (items_of.listed_constants names.now (item_tree listed.now)) tt) }
    ensures made { OnOk result (map output_tree outputs.new.items ≡ map output_tree outputs.old.items ++ items_of.listed_outputs names.now (item_tree listed.now)) }
{
    match listed {
        SelectItem::All => Ok(add_all_outputs(alloc, outputs, names.items())?),
        SelectItem::AllOf(table) => {
            Ok(add_outputs_of(alloc, outputs, names.items(), table.as_bytes())?)
        }
        SelectItem::Output(e, alias) => {
            let output = bind_output(alloc, names, e, alias)?;
            Ok(add(outputs, output)?)
        }
    }
}

/// The output columns, or the first fault of their constants.
pub(crate) fn bind_list(
    alloc: Global,
    names: &Names<'_>,
    list: &[SelectItem],
) -> Result<Vec<Output>, Refusal>
    ensures { IsAnswerBy (λ v. map output_tree v.items) result (or_first (items_of.list_constants names.now (map item_tree list.now)) (items_of.list_outputs names.now (map item_tree list.now))) }
{
    let mut outputs = Vec::new(alloc);
    for listed in list {
        bind_listed(alloc, names, &mut outputs, listed)?;
    }
    Ok(outputs)
}
