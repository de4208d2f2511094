//! The items of a plan: scans of leaves, with what they ask.

ghost use Rattle.std.specs.Prelude.{◌≡◌, ◌≤◌, ◌++◌, OnOk, IfOk};
ghost use Rattle.cond_logic.specs.Trees.{cond_tree};
ghost use Rattle.cond_logic.specs.Tuples.{lent};
ghost use Rattle.plan_tree.specs.Plans.{planned_item};
ghost use Rattle.plan_text.specs.Conditions.{several};
ghost use Rattle.plan_text.specs.Plans as plans;

use crate::NamedItem;
use crate::conditions::push_conjuncts;
use crate::counts::{of_append, of_part, of_scan};
use crate::names::write_alias;
use crate::nodes::push_node;
use crate::rows::all_text;
use cond_logic::{Cond, NamedLeaf};
use pg_values::{NoMemory, PgText};
use plan_tree::{PlanCounts, PlanItem};
use std::alloc::Global;

// What a node tells of the conjuncts of an item.
#[derive(Clone, Copy)]
enum Detail {
    Filter,
    HashCond,
    JoinFilter,
}

// Whether its scans ask the conjunct, whether a Hash Join finds rows by it, or whether a join asks it of the rows that it
// found.
fn tells(item: &PlanItem<'_>, detail: Detail, conjunct: &Cond) -> bool
    ensures { result ≡ plans.tells (planned_item item.now) detail (cond_tree conjunct.now) }
{
    match detail {
        Detail::Filter => item.scans_ask(conjunct),
        Detail::HashCond => item.hash_cond(conjunct).is_some(),
        Detail::JoinFilter => item.join_filters(conjunct),
    }
}

fn texts(
    alloc: Global,
    items: &[NamedItem],
    item: &PlanItem<'_>,
    detail: Detail,
) -> Result<Vec<PgText>, NoMemory>
    ensures { IfOk result (λ ts. ts.items ≡ several items.now (plans.conjuncts_told (planned_item item.now) detail)) }
{
    let mut texts = Vec::new(alloc);
    for cond in item.conjuncts.as_slice() {
        if tells(item, detail, cond) {
            push_conjuncts(alloc, items, cond, &mut texts)?;
        }
    }
    Ok(texts)
}

fn worded(alloc: Global, word: &[u8], text: &[u8]) -> Result<PgText, NoMemory>
    ensures { IfOk result (λ t. t ≡ word.now ++ text.now) }
{
    let mut line = Vec::new(alloc);
    line.extend_from_slice(word)?;
    line.extend_from_slice(text)?;
    PgText::from_vec(alloc, line)
}

// Appends a detail, where there is something to ask.
fn push_detail(
    alloc: Global,
    word: &[u8],
    texts: &[PgText],
    details: &mut Vec<PgText>,
) -> Result<(), NoMemory>
    ensures { OnOk result (details.new.items ≡ details.old.items ++ plans.detail word.now texts.now) }
{
    if texts.is_empty() {
        return Ok(());
    }
    let text = all_text(alloc, texts)?;
    details.push(worded(alloc, word, text.as_bytes())?)?;
    Ok(())
}

fn filters(alloc: Global, items: &[NamedItem], item: &PlanItem<'_>) -> Result<Vec<PgText>, NoMemory>
    ensures { IfOk result (λ ds. ds.items ≡ plans.filters items.now (planned_item item.now)) }
{
    let mut details = Vec::new(alloc);
    let asked = texts(alloc, items, item, Detail::Filter)?;
    push_detail(alloc, b"Filter: ", &asked, &mut details)?;
    Ok(details)
}

/// What the join with the items before it asks of an item.
pub(crate) fn join_details(
    alloc: Global,
    items: &[NamedItem],
    item: &PlanItem<'_>,
) -> Result<Vec<PgText>, NoMemory>
    ensures { IfOk result (λ ds. ds.items ≡ plans.join_details items.now (planned_item item.now)) }
{
    let mut details = Vec::new(alloc);
    let found_by = texts(alloc, items, item, Detail::HashCond)?;
    push_detail(alloc, b"Hash Cond: ", &found_by, &mut details)?;
    let asked = texts(alloc, items, item, Detail::JoinFilter)?;
    push_detail(alloc, b"Join Filter: ", &asked, &mut details)?;
    Ok(details)
}

fn scan_text(
    alloc: Global,
    items: &[NamedItem],
    number: u32,
    leaf: &NamedLeaf<'_>,
) -> Result<PgText, NoMemory>
    ensures { IfOk result (λ t. t ≡ plans.scan_text items.now number leaf.now) }
{
    let mut text = Vec::new(alloc);
    text.extend_from_slice(b"Seq Scan on ")?;
    text.extend_from_slice(leaf.name.as_bytes())?;
    write_alias(items, number, &mut text)?;
    PgText::from_vec(alloc, text)
}

fn push_scan(
    alloc: Global,
    items: &[NamedItem],
    counts: Option<&PlanCounts>,
    number: u32,
    filters: &[PgText],
    leaf: &NamedLeaf<'_>,
    depth: usize,
    out: &mut Vec<PgText>,
) -> Result<(), NoMemory>
    requires { depth ≤ 100 }
    ensures { OnOk result (out.new.items ≡ out.old.items ++ plans.scan items.now (lent counts.entry) number filters.now leaf.now depth) }
{
    let text = scan_text(alloc, items, number, leaf)?;
    let count = of_scan(counts, number, leaf.id);
    push_node(alloc, depth, text.as_bytes(), count, filters, out)
}

fn push_scans(
    alloc: Global,
    items: &[NamedItem],
    counts: Option<&PlanCounts>,
    number: u32,
    filters: &[PgText],
    leaves: &[NamedLeaf<'_>],
    depth: usize,
    out: &mut Vec<PgText>,
) -> Result<(), NoMemory>
    requires { depth ≤ 100 }
    ensures { OnOk result (out.new.items ≡ out.old.items ++ plans.scans items.now (lent counts.entry) number filters.now leaves.now depth) }
{
    for leaf in leaves {
        push_scan(alloc, items, counts, number, filters, leaf, depth, out)?;
    }
    Ok(())
}

// How many leaves the start of the plan removed.
fn removed_detail(alloc: Global, removed: usize) -> Result<Vec<PgText>, NoMemory>
    ensures { IfOk result (λ ds. ds.items ≡ plans.removed_detail removed) }
{
    let mut details = Vec::new(alloc);
    if removed == 0 {
        return Ok(details);
    }
    let mut digits = itoa::Buffer::new();
    let count = digits.format(removed as u128);
    details.push(worded(alloc, b"Subplans Removed: ", count.as_bytes())?)?;
    Ok(details)
}

/// Appends the lines of an item: its scan, or an Append of its scans.
pub(crate) fn push_item(
    alloc: Global,
    items: &[NamedItem],
    counts: Option<&PlanCounts>,
    item: &PlanItem<'_>,
    depth: usize,
    out: &mut Vec<PgText>,
) -> Result<(), NoMemory>
    requires { depth ≤ 99 }
    ensures { OnOk result (out.new.items ≡ out.old.items ++ plans.item items.now (lent counts.entry) (planned_item item.now) depth) }
{
    let number = item.number;
    let asked = filters(alloc, items, item)?;
    let is_pruned_again = item.is_asked_at_start || item.is_asked_again;
    let leaves = item.leaves.as_slice();
    if leaves.len() == 1 && !is_pruned_again {
        return push_scans(alloc, items, counts, number, &asked, leaves, depth, out);
    }
    let removed = removed_detail(alloc, item.removed)?;
    let count = of_append(counts, item);
    push_node(alloc, depth, b"Append", count, &removed, out)?;
    push_scans(alloc, items, counts, number, &asked, leaves, depth + 1, out)
}

// The scans of a part of an item.
fn push_part_scans(
    alloc: Global,
    items: &[NamedItem],
    counts: Option<&PlanCounts>,
    item: &PlanItem<'_>,
    part: &[NamedLeaf<'_>],
    depth: usize,
    out: &mut Vec<PgText>,
) -> Result<(), NoMemory>
    requires { depth ≤ 99 }
    ensures { OnOk result (out.new.items ≡ out.old.items ++ plans.part_scans items.now (lent counts.entry) (planned_item item.now) part.now depth) }
{
    let number = item.number;
    let asked = filters(alloc, items, item)?;
    if part.len() == 1 {
        return push_scans(alloc, items, counts, number, &asked, part, depth, out);
    }
    let count = of_part(counts, number, part);
    push_node(alloc, depth, b"Append", count, &[], out)?;
    push_scans(alloc, items, counts, number, &asked, part, depth + 1, out)
}

/// Appends the lines of a part of an item, which is sorted by itself by these keys.
pub(crate) fn push_part(
    alloc: Global,
    items: &[NamedItem],
    counts: Option<&PlanCounts>,
    keys: &[PgText],
    item: &PlanItem<'_>,
    part: &[NamedLeaf<'_>],
    depth: usize,
    out: &mut Vec<PgText>,
) -> Result<(), NoMemory>
    requires { depth ≤ 98 }
    ensures { OnOk result (out.new.items ≡ out.old.items ++ plans.sorted_part items.now (lent counts.entry) keys.now (planned_item item.now) part.now depth) }
{
    let count = of_part(counts, item.number, part);
    push_node(alloc, depth, b"Sort", count, keys, out)?;
    push_part_scans(alloc, items, counts, item, part, depth + 1, out)
}
