ghost use Rattle.std.specs.Prelude.{◌≡◌, ◌≤◌, ◌+◌, ◌++◌, ◌∷◌, [], OnOk, IfOk, codes, length, map};
ghost use Rattle.std.specs.List.{flat_map};
ghost use Rattle.cond_logic.specs.Asked.{output_tree, select_meant};
ghost use Rattle.cond_logic.specs.Tuples.{lent};
ghost use Rattle.plan_tree.specs.OrderedAppends.{sorted_parts};
ghost use Rattle.plan_tree.specs.Counts.{join_count};
ghost use Rattle.plan_tree.specs.Plans.{both, planned, planned_item, planned_pair};
ghost use Rattle.plan_text.specs.Nodes.{alone, counted, each};
ghost use Rattle.plan_text.specs.Plans as plans;

use crate::NamedItem;
use crate::counts::{of_answer, of_given, of_join, of_pairs};
use crate::keys::write_keys;
use crate::nodes::push_node;
use crate::scans::{join_details, push_item, push_part};
use cond_logic::{NamedLeaf, Output, SelectAsk, SortKey};
use pg_values::{Answer, Kind, KindList, NameList, NoMemory, PgText, Row, RowList, Value};
use plan_tree::{Count, JoinKind, Plan, PlanCounts, PlanItem, PlanPair};
use std::alloc::Global;

// ---- items

fn join_text(join: JoinKind) -> &'static [u8]
    ensures { result.now ≡ plans.join_text join }
{
    match join {
        JoinKind::NestedLoop => b"Nested Loop",
        JoinKind::HashJoin => b"Hash Join",
    }
}

// The line of the join of an item with those before it.
fn push_join(
    alloc: Global,
    items: &[NamedItem],
    counts: Option<&PlanCounts>,
    item: &PlanItem<'_>,
    depth: usize,
    out: &mut Vec<PgText>,
) -> Result<(), NoMemory>
    requires { depth ≤ 100 }
    ensures { OnOk result (out.new.items ≡ out.old.items ++ alone (plans.told (join_count (planned_item item.now).number (planned_item item.now).part) (lent counts.entry) (plans.join_text item.now.join)) (plans.join_details items.now (planned_item item.now)) depth) }
{
    let details = join_details(alloc, items, item)?;
    let count = of_join(counts, item);
    push_node(alloc, depth, join_text(item.join), count, &details, out)
}

// Items that are joined from the left: the last with all before it.
fn push_joined(
    alloc: Global,
    items: &[NamedItem],
    counts: Option<&PlanCounts>,
    joined: &[PlanItem<'_>],
    depth: usize,
    out: &mut Vec<PgText>,
) -> Result<(), NoMemory>
    requires { depth + length joined.now ≤ 99 }
    ensures { OnOk result (out.new.items ≡ out.old.items ++ plans.joins items.now (lent counts.entry) (map planned_item joined.now) depth) }
{
    match joined.split_last() {
        None => Ok(()),
        Some((last, before)) => {
            if before.is_empty() {
                return push_item(alloc, items, counts, last, depth, out);
            }
            push_join(alloc, items, counts, last, depth, out)?;
            push_joined(alloc, items, counts, before, depth + 1, out)?;
            push_item(alloc, items, counts, last, depth + 1, out)
        }
    }
}

// Without FROM there is a result alone.
fn push_items(
    alloc: Global,
    items: &[NamedItem],
    counts: Option<&PlanCounts>,
    joined: &[PlanItem<'_>],
    depth: usize,
    out: &mut Vec<PgText>,
) -> Result<(), NoMemory>
    requires { depth + length joined.now ≤ 99 }
    ensures { OnOk result (out.new.items ≡ out.old.items ++ plans.items items.now (lent counts.entry) (map planned_item joined.now) depth) }
{
    if joined.is_empty() {
        return push_node(alloc, depth, b"Result", of_given(counts), &[], out);
    }
    push_joined(alloc, items, counts, joined, depth, out)
}

fn one(alloc: Global, text: PgText) -> Result<Vec<PgText>, NoMemory>
    ensures { IfOk result (λ ts. ts.items ≡ text ∷ []) }
{
    let mut texts = Vec::new(alloc);
    texts.push(text)?;
    Ok(texts)
}

// Where no leaf is kept.
fn push_never(
    alloc: Global,
    count: Option<Count>,
    depth: usize,
    out: &mut Vec<PgText>,
) -> Result<(), NoMemory>
    requires { depth ≤ 100 }
    ensures { OnOk result (out.new.items ≡ out.old.items ++ alone (counted (codes "Result") count) (codes "One-Time Filter: false" ∷ []) depth) }
{
    let never = one(alloc, PgText::from_bytes(alloc, b"One-Time Filter: false")?)?;
    push_node(alloc, depth, b"Result", count, &never, out)
}

// The join of two partitions.
fn push_pair(
    alloc: Global,
    items: &[NamedItem],
    counts: Option<&PlanCounts>,
    pair: &PlanPair<'_>,
    depth: usize,
    out: &mut Vec<PgText>,
) -> Result<(), NoMemory>
    requires { depth ≤ 98 }
    ensures { OnOk result (out.new.items ≡ out.old.items ++ plans.joins items.now (lent counts.entry) (both (planned_pair pair.now)) depth) }
{
    push_join(alloc, items, counts, &pair.right, depth, out)?;
    push_item(alloc, items, counts, &pair.left, depth + 1, out)?;
    push_item(alloc, items, counts, &pair.right, depth + 1, out)
}

fn push_each_pair(
    alloc: Global,
    items: &[NamedItem],
    counts: Option<&PlanCounts>,
    pairs: &[PlanPair<'_>],
    depth: usize,
    out: &mut Vec<PgText>,
) -> Result<(), NoMemory>
    requires { depth ≤ 98 }
    ensures { OnOk result (out.new.items ≡ out.old.items ++ each (λ p. plans.joins items.now (lent counts.entry) (both p)) (map planned_pair pairs.now) depth) }
{
    for pair in pairs {
        push_pair(alloc, items, counts, pair, depth, out)?;
    }
    Ok(())
}

// A partitionwise join.
fn push_pairs(
    alloc: Global,
    items: &[NamedItem],
    counts: Option<&PlanCounts>,
    pairs: &[PlanPair<'_>],
    depth: usize,
    out: &mut Vec<PgText>,
) -> Result<(), NoMemory>
    requires { depth ≤ 97 }
    ensures { OnOk result (out.new.items ≡ out.old.items ++ plans.pair_joins items.now (lent counts.entry) (map planned_pair pairs.now) depth) }
{
    let count = of_pairs(counts, pairs);
    if pairs.is_empty() {
        return push_never(alloc, count, depth, out);
    }
    if pairs.len() == 1 {
        return push_pair(alloc, items, counts, &pairs[0], depth, out);
    }
    push_node(alloc, depth, b"Append", count, &[], out)?;
    push_each_pair(alloc, items, counts, pairs, depth + 1, out)
}

// Items that are joined from the left onto a partitionwise join.
fn push_onto(
    alloc: Global,
    items: &[NamedItem],
    counts: Option<&PlanCounts>,
    pairs: &[PlanPair<'_>],
    joined: &[PlanItem<'_>],
    depth: usize,
    out: &mut Vec<PgText>,
) -> Result<(), NoMemory>
    requires { depth + length joined.now ≤ 97 }
    ensures { OnOk result (out.new.items ≡ out.old.items ++ plans.joined items.now (lent counts.entry) (plans.pair_joins items.now (lent counts.entry) (map planned_pair pairs.now)) (map planned_item joined.now) depth) }
{
    match joined.split_last() {
        None => push_pairs(alloc, items, counts, pairs, depth, out),
        Some((last, before)) => {
            push_join(alloc, items, counts, last, depth, out)?;
            push_onto(alloc, items, counts, pairs, before, depth + 1, out)?;
            push_item(alloc, items, counts, last, depth + 1, out)
        }
    }
}

fn push_rows(
    alloc: Global,
    items: &[NamedItem],
    counts: Option<&PlanCounts>,
    plan: &Plan<'_>,
    depth: usize,
    out: &mut Vec<PgText>,
) -> Result<(), NoMemory>
    requires { depth + length (planned plan.now).items ≤ 97 }
    ensures { OnOk result (out.new.items ≡ out.old.items ++ plans.rows items.now (lent counts.entry) (planned plan.now) depth) }
{
    if plan.is_empty() {
        return push_never(alloc, of_given(counts), depth, out);
    }
    match &plan.pairs {
        None => push_items(alloc, items, counts, plan.items.as_slice(), depth, out),
        Some(pairs) => {
            let behind = plan.unpaired();
            push_onto(alloc, items, counts, pairs.as_slice(), behind, depth, out)
        }
    }
}

// ---- ORDER BY, LIMIT and OFFSET

fn sort_detail(
    alloc: Global,
    items: &[NamedItem],
    outputs: &[Output],
    order: &[SortKey],
) -> Result<Vec<PgText>, NoMemory>
    ensures { IfOk result (λ ds. ds.items ≡ plans.sort_detail items.now (map output_tree outputs.now) order.now) }
{
    let mut text = Vec::new(alloc);
    text.extend_from_slice(b"Sort Key: ")?;
    write_keys(items, outputs, order, &mut text)?;
    one(alloc, PgText::from_vec(alloc, text)?)
}

fn push_sorted(
    alloc: Global,
    items: &[NamedItem],
    counts: Option<&PlanCounts>,
    outputs: &[Output],
    order: &[SortKey],
    plan: &Plan<'_>,
    depth: usize,
    out: &mut Vec<PgText>,
) -> Result<(), NoMemory>
    requires { depth + length (planned plan.now).items ≤ 96 }
    ensures { OnOk result (out.new.items ≡ out.old.items ++ plans.sorted items.now (lent counts.entry) (map output_tree outputs.now) order.now (plans.rows items.now (lent counts.entry) (planned plan.now)) depth) }
{
    if order.is_empty() {
        return push_rows(alloc, items, counts, plan, depth, out);
    }
    let keys = sort_detail(alloc, items, outputs, order)?;
    push_node(alloc, depth, b"Sort", of_given(counts), &keys, out)?;
    push_rows(alloc, items, counts, plan, depth + 1, out)
}

// The parts of an item, each sorted by itself.
fn push_parts(
    alloc: Global,
    items: &[NamedItem],
    counts: Option<&PlanCounts>,
    keys: &[PgText],
    item: &PlanItem<'_>,
    parts: &[&[NamedLeaf<'_>]],
    depth: usize,
    out: &mut Vec<PgText>,
) -> Result<(), NoMemory>
    requires { depth ≤ 98 }
    ensures { OnOk result (out.new.items ≡ out.old.items ++ flat_map (λ part. plans.sorted_part items.now (lent counts.entry) keys.now (planned_item item.now) part.now depth) parts.now) }
{
    for part in parts {
        push_part(alloc, items, counts, keys, item, part, depth, out)?;
    }
    Ok(())
}

fn push_ordered(
    alloc: Global,
    items: &[NamedItem],
    counts: Option<&PlanCounts>,
    keys: &[PgText],
    plan: &Plan<'_>,
    parts: &[&[NamedLeaf<'_>]],
    depth: usize,
    out: &mut Vec<PgText>,
) -> Result<(), NoMemory>
    requires { depth ≤ 97 }
    ensures { OnOk result (out.new.items ≡ out.old.items ++ plans.ordered_append items.now (lent counts.entry) keys.now (planned plan.now).items (map (λ p. p.now) parts.now) depth) }
{
    let planned = plan.items.as_slice();
    if planned.is_empty() {
        return Ok(());
    }
    push_node(alloc, depth, b"Ordered Append", of_given(counts), &[], out)?;
    push_parts(
        alloc,
        items,
        counts,
        keys,
        &planned[0],
        parts,
        depth + 1,
        out,
    )
}

// The rows in the order of ORDER BY.
fn push_in_order(
    alloc: Global,
    items: &[NamedItem],
    counts: Option<&PlanCounts>,
    ask: &SelectAsk,
    plan: &Plan<'_>,
    depth: usize,
    out: &mut Vec<PgText>,
) -> Result<(), NoMemory>
    requires { depth + length (planned plan.now).items ≤ 96 }
    ensures { OnOk result (out.new.items ≡ out.old.items ++ plans.in_order items.now (lent counts.entry) (select_meant ask.now) (planned plan.now) (sorted_parts (select_meant ask.now) (planned plan.now)) depth) }
{
    let outputs = ask.outputs.as_slice();
    let order = ask.order.as_slice();
    let parts = plan.sorted_parts(alloc, ask)?;
    if parts.is_empty() {
        return push_sorted(alloc, items, counts, outputs, order, plan, depth, out);
    }
    let keys = sort_detail(alloc, items, outputs, order)?;
    push_ordered(alloc, items, counts, &keys, plan, &parts, depth, out)
}

fn plan_lines(
    alloc: Global,
    items: &[NamedItem],
    counts: Option<&PlanCounts>,
    is_cut: bool,
    ask: &SelectAsk,
    plan: &Plan<'_>,
) -> Result<Vec<PgText>, NoMemory>
    requires { length (planned plan.now).items ≤ 4 }
    ensures { IfOk result (λ ls. ls.items ≡ plans.plan_lines items.now (lent counts.entry) is_cut (select_meant ask.now) (planned plan.now)) }
{
    let mut lines = Vec::new(alloc);
    if is_cut {
        push_node(alloc, 0, b"Limit", of_answer(counts), &[], &mut lines)?;
        push_in_order(alloc, items, counts, ask, plan, 1, &mut lines)?;
        return Ok(lines);
    }
    push_in_order(alloc, items, counts, ask, plan, 0, &mut lines)?;
    Ok(lines)
}

// ---- the table

fn text_row(alloc: Global, line: PgText) -> Result<Row, NoMemory>
    ensures { IfOk result (λ r. r ≡ plans.text_row line) }
{
    let mut row = Row::new(alloc);
    row.push(Value::Text(line))?;
    Ok(row)
}

fn text_rows(alloc: Global, lines: Vec<PgText>) -> Result<RowList, NoMemory>
    ensures { IfOk result (λ rs. rs ≡ map plans.text_row lines.items) }
{
    let mut rows = RowList::new(alloc);
    for line in lines {
        rows.push(text_row(alloc, line)?)?;
    }
    Ok(rows)
}

fn plan_table(alloc: Global, lines: Vec<PgText>) -> Result<Answer, NoMemory>
    ensures { IfOk result (λ a. a ≡ plans.plan_table lines.items) }
{
    let mut names = NameList::new(alloc);
    names.push(PgText::from_bytes(alloc, b"QUERY PLAN")?)?;
    let mut kinds = KindList::new(alloc);
    kinds.push(Kind::Text)?;
    Ok(Answer {
        names,
        kinds,
        rows: text_rows(alloc, lines)?,
    })
}

/// The plan of a SELECT as EXPLAIN answers it, a line a row. The items of FROM go by these names; `is_cut` tells
/// whether there is an OFFSET, or a LIMIT that is not null. Where the plan was run each node tells what was counted of it.
/// Fails only for want of memory.
pub fn write_plan(
    alloc: Global,
    items: &[NamedItem],
    counts: Option<&PlanCounts>,
    is_cut: bool,
    ask: &SelectAsk,
    plan: &Plan<'_>,
) -> Result<Answer, NoMemory>
    requires few { length (planned plan.now).items ≤ 4 }
    ensures { IfOk result (λ a. a ≡ plans.plan_table (plans.plan_lines items.now (lent counts.entry) is_cut (select_meant ask.now) (planned plan.now))) }
{
    plan_table(alloc, plan_lines(alloc, items, counts, is_cut, ask, plan)?)
}
