//! Whether a partition may stand below a table.

ghost use Rattle.std.specs.Prelude.{◌≡◌, ◌<◌, ◌≤◌, ◌++◌, ℕ, [], ◌∷◌, MatchResult, IfOk, OnOk, Ok, None, All, false, true, find, length, map, option_map, slice_index_or};
ghost use Rattle.pg_values.specs.KeyKinds.{IsNotNull};
ghost use Rattle.pg_values.specs.Refusals.{IsAnswer, or_first};
ghost use Rattle.bound_forms.specs.declared.partition_bound.Bound.TheVariants.{Default, List as Listed};
ghost use Rattle.bound_forms.specs.Bounds.{is_filled, overlaps, BoundOfKind, BoundsFit, IsInPlainOrder};
ghost use Rattle.bound_forms.specs.Listed.{share_value, ListsFit};
ghost use Rattle.bound_forms.specs.Moduli as moduli;
ghost use Rattle.bound_forms.specs.Moduli.{bad_modulus};
ghost use Rattle.history.specs.History.{History};
ghost use Rattle.history.specs.Places.{TakesBound};
ghost use Rattle.tx_table.specs.Stands.{TableStands};
ghost use Rattle.row_router.specs.Histories.{bound_of};
ghost use Rattle.part_catalog.specs.Answers.{AreTogether};
ghost use Rattle.part_catalog.specs.Found.{made_at};
ghost use Rattle.part_catalog.specs.Full.{added};
ghost use Rattle.part_catalog.specs.Kept.{no_entry};
ghost use Rattle.part_catalog.specs.Stands.{CatalogueStands};
ghost use Rattle.part_ddl.specs.Placing as placing;
ghost use Rattle.part_ddl.specs.Placing.{AreOfOneLevel, IsFault};

use crate::below::default_among;
use bound_forms::{Bound, Level, RowKey, cmp_points, copy_bound};
use history::{Entry, TableShape};
use part_bounds::{BoundSet, find_child_uncounted, modulus_fault, overlap_uncounted, set_in_order};
use part_catalog::{Catalog, ENTRY_LIMIT, LEVEL_LIMIT, PARTITION_LIMIT};
use pg_values::{NoMemory, Refusal, Row, TableNo, ValueKey, Which};
use refusals::{
    bound_overlaps, modulus_does_not_suit, not_partitioned, partition_is_pending, second_default,
    too_many,
};
use std::alloc::Global;
use tx_table::TxTable;

/// The level of a table, below which a partition is to stand; 42809 where the table is not
/// partitioned.
pub fn parent_level<'c>(
    alloc: Global,
    catalog: &'c Catalog,
    parent: TableNo,
) -> Result<&'c Level, Refusal>
    requires { parent.number < length catalog.now.tables }
    ensures { (h : History) → CatalogueStands catalog.now h →
        MatchResult result (λ level. placing.level_at h parent.number ≡ Ok level.now) (λ e. IsFault e (placing.level_at h parent.number)) }
{
    let table = catalog.table(parent);
    match &table.shape {
        TableShape::Level(level) => Ok(level),
        TableShape::Leaf(_) => Err(Refusal::Sql(not_partitioned(alloc, table.name.as_bytes())?)),
    }
}

// The bound by itself, as a set.
fn set_of(alloc: Global, bound: &Bound) -> Result<BoundSet<ValueKey>, NoMemory>
    requires { BoundOfKind IsNotNull bound.now }
    ensures { IfOk result (λ set. set ≡ bound.now ∷ []) }
{
    let mut bounds = Vec::new(alloc);
    bounds.push(copy_bound(alloc, bound)?)?;
    let set = set_in_order(alloc, bounds, ValueKey)?;
    Ok(set)
}

// The modulus of a bound that has one.
fn modulus_of(bound: &Bound) -> Option<u32>
    ensures { result ≡ moduli.modulus_of bound.now }
{
    match bound {
        Bound::Hash { modulus, .. } => Some(*modulus),
        _ => None,
    }
}

// The modulus of the first partition that does not suit the only bound of the set.
fn unsuited(one: &BoundSet<ValueKey>, _bound: &Bound, partitions: &[&Entry]) -> Option<u32>
    requires one { one.now ≡ _bound.now ∷ [] }
    requires filled { All (λ e. is_filled e.bound ≡ true) (map (λ e. e.now) partitions.now) }
    ensures { result ≡ bad_modulus _bound.now (map bound_of (map (λ e. e.now) partitions.now)) }
{
    for entry in partitions {
        if modulus_fault(one, &entry.bound).is_some() {
            return modulus_of(&entry.bound);
        }
    }
    None
}

// Whether one of the values is among those of the set's only list, which is searched by halves.
fn is_shared(one: &BoundSet<ValueKey>, _listed: &Row, values: &Row) -> bool
    requires one { one.now ≡ Listed _listed.now ∷ [] }
    requires fit { ListsFit _listed.now values.now }
    ensures { result ≡ share_value values.now _listed.now }
{
    for i in 0..values.len() {
        let key = RowKey {
            row: values,
            columns: &[i],
        };
        if find_child_uncounted(one, &key).is_some() {
            return true;
        }
    }
    false
}

// Whether the only bound of the set overlaps the other one.
fn overlaps_other(one: &BoundSet<ValueKey>, bound: &Bound, other: &Bound) -> bool
    requires one { one.now ≡ bound.now ∷ [] }
    requires filled { is_filled other.now ≡ true }
    requires fit { BoundsFit bound.now other.now }
    ensures { result ≡ overlaps bound.now other.now }
{
    match (bound, other) {
        (Bound::List { values: listed }, Bound::List { values }) => is_shared(one, listed, values),
        _ => overlap_uncounted(one, other).is_some(),
    }
}

// Whether the bound is a range that begins where the other one ends, or behind it.
fn begins_behind(bound: &Bound, other: &Bound) -> bool
    requires kind { BoundOfKind IsNotNull bound.now }
    requires fit { BoundsFit bound.now other.now }
    ensures { result ≡ placing.begins_behind bound.now other.now }
{
    match (bound, other) {
        (Bound::Range { lower, .. }, Bound::Range { upper, .. }) => {
            cmp_points(&ValueKey, lower, upper).is_ge()
        }
        _ => false,
    }
}

// How many of the partitions the bound begins behind, by halves: it overlaps none of them.
fn count_before(bound: &Bound, partitions: &[&Entry]) -> usize
    requires kind { BoundOfKind IsNotNull bound.now }
    requires filled { All (λ e. is_filled e.bound ≡ true) (map (λ e. e.now) partitions.now) }
    requires fit { All (λ e. BoundsFit bound.now e.bound) (map (λ e. e.now) partitions.now) }
    requires ordered { IsInPlainOrder (map bound_of (map (λ e. e.now) partitions.now)) }
    ensures within { result ≤ length partitions.now }
    ensures apart { (k : ℕ) → k < result → overlaps bound.now (slice_index_or (map (λ e. e.now) partitions.now) k no_entry.entry).bound ≡ false }
{
    let mut low = 0;
    let mut high = partitions.len();
    while low < high {
        let middle = low + (high - low) / 2;
        if begins_behind(bound, &partitions[middle].bound) {
            low = middle + 1;
        } else {
            high = middle;
        }
    }
    low
}

// The first partition whose bound overlaps the only bound of the set.
fn overlapping(one: &BoundSet<ValueKey>, bound: &Bound, partitions: &[&Entry]) -> Option<TableNo>
    requires one { one.now ≡ bound.now ∷ [] }
    requires filled { All (λ e. is_filled e.bound ≡ true) (map (λ e. e.now) partitions.now) }
    requires fit { All (λ e. BoundsFit bound.now e.bound) (map (λ e. e.now) partitions.now) }
    requires kind { BoundOfKind IsNotNull bound.now }
    requires ordered { IsInPlainOrder (map bound_of (map (λ e. e.now) partitions.now)) }
    ensures { result ≡ option_map (λ e. e.child) (find (λ e. overlaps bound.now e.bound) (map (λ e. e.now) partitions.now)) }
{
    let from = count_before(bound, partitions);
    for i in from..partitions.len() {
        let entry = partitions[i];
        if overlaps_other(one, bound, &entry.bound) {
            return Some(entry.child);
        }
    }
    None
}

// A default stands beside no other default, and beside no pending partition.
fn check_further_default(
    alloc: Global,
    catalog: &Catalog,
    parent: &[u8],
    pending: Option<&[u8]>,
    partitions: &[&Entry],
) -> Result<(), Refusal>
    requires { All (λ e. e.child.number < length catalog.now.tables) (map (λ e. e.now) partitions.now) }
    ensures { (h : History) → CatalogueStands catalog.now h →
        IsAnswer result (or_first (placing.default_faults parent.now (option_map (λ n. n.now) pending.entry) (map (placing.child_name h) (map (λ e. e.now) partitions.now)) (map bound_of (map (λ e. e.now) partitions.now)) Default) tt) }
{
    if let Some(default) = default_among(partitions) {
        let name = catalog.name_of(default);
        return Err(Refusal::Sql(second_default(alloc, parent, name)?));
    }
    match pending {
        Some(name) => Err(Refusal::Sql(partition_is_pending(alloc, name, parent)?)),
        None => Ok(()),
    }
}

fn check_default(
    alloc: Global,
    catalog: &Catalog,
    parent: &[u8],
    pending: Option<&[u8]>,
    partitions: &[&Entry],
    bound: &Bound,
) -> Result<(), Refusal>
    requires { All (λ e. e.child.number < length catalog.now.tables) (map (λ e. e.now) partitions.now) }
    ensures { (h : History) → CatalogueStands catalog.now h →
        IsAnswer result (or_first (placing.default_faults parent.now (option_map (λ n. n.now) pending.entry) (map (placing.child_name h) (map (λ e. e.now) partitions.now)) (map bound_of (map (λ e. e.now) partitions.now)) bound.now) tt) }
{
    match bound {
        Bound::Default => check_further_default(alloc, catalog, parent, pending, partitions),
        _ => Ok(()),
    }
}

// Of two moduli one is a factor of the other.
fn check_modulus(
    alloc: Global,
    one: &BoundSet<ValueKey>,
    partitions: &[&Entry],
    bound: &Bound,
) -> Result<(), Refusal>
    requires one { one.now ≡ bound.now ∷ [] }
    requires filled { All (λ e. is_filled e.bound ≡ true) (map (λ e. e.now) partitions.now) }
    ensures answer { IsAnswer result (or_first (placing.modulus_faults (map bound_of (map (λ e. e.now) partitions.now)) bound.now) tt) }
    ensures fit { OnOk result (bad_modulus bound.now (map bound_of (map (λ e. e.now) partitions.now)) ≡ None) }
{
    match bound {
        Bound::Hash { modulus, .. } => match unsuited(one, bound, partitions) {
            None => Ok(()),
            Some(other) => {
                Err(Refusal::Sql(modulus_does_not_suit(
                    alloc,
                    u64::from(*modulus),
                    u64::from(other),
                )?))
            }
        },
        _ => Ok(()),
    }
}

fn check_overlap(
    alloc: Global,
    catalog: &Catalog,
    one: &BoundSet<ValueKey>,
    partitions: &[&Entry],
    bound: &Bound,
) -> Result<(), Refusal>
    requires one { one.now ≡ bound.now ∷ [] }
    requires known { All (λ e. e.child.number < length catalog.now.tables) (map (λ e. e.now) partitions.now) }
    requires filled { All (λ e. is_filled e.bound ≡ true) (map (λ e. e.now) partitions.now) }
    requires fit { All (λ e. BoundsFit bound.now e.bound) (map (λ e. e.now) partitions.now) }
    requires kind { BoundOfKind IsNotNull bound.now }
    requires ordered { IsInPlainOrder (map bound_of (map (λ e. e.now) partitions.now)) }
    ensures { (h : History) → CatalogueStands catalog.now h →
        IsAnswer result (or_first (placing.overlap_faults (map (placing.child_name h) (map (λ e. e.now) partitions.now)) (map bound_of (map (λ e. e.now) partitions.now)) bound.now) tt) }
{
    match overlapping(one, bound, partitions) {
        Some(other) => {
            let name = catalog.name_of(other);
            Err(Refusal::Sql(bound_overlaps(alloc, name)?))
        }
        None => Ok(()),
    }
}

// What stands against the bound among the partitions of its level.
fn check_beside(
    alloc: Global,
    catalog: &Catalog,
    parent: &[u8],
    pending: Option<&[u8]>,
    partitions: &[&Entry],
    bound: &Bound,
) -> Result<(), Refusal>
    requires known { All (λ e. e.child.number < length catalog.now.tables) (map (λ e. e.now) partitions.now) }
    requires level { AreOfOneLevel bound.now (map bound_of (map (λ e. e.now) partitions.now)) }
    requires ordered { IsInPlainOrder (map bound_of (map (λ e. e.now) partitions.now)) }
    ensures { (h : History) → CatalogueStands catalog.now h →
        IsAnswer result (or_first (placing.bound_faults parent.now (option_map (λ n. n.now) pending.entry) (map (placing.child_name h) (map (λ e. e.now) partitions.now)) (map bound_of (map (λ e. e.now) partitions.now)) bound.now) tt) }
{
    check_default(alloc, catalog, parent, pending, partitions, bound)?;
    let one = set_of(alloc, bound)?;
    check_modulus(alloc, &one, partitions, bound)?;
    check_overlap(alloc, catalog, &one, partitions, bound)
}

// A table has 1,024 partitions at most, a path 8 tables, and each partition that a run attaches a number of 64 bits.
fn check_room(alloc: Global, partitions: usize, added: u64, levels: usize) -> Result<(), Refusal>
    ensures { IsAnswer result (or_first (placing.room_faults partitions added levels) tt) }
{
    if partitions >= PARTITION_LIMIT || added >= ENTRY_LIMIT {
        return Err(Refusal::Sql(too_many(alloc, Which::Partitions)?));
    }
    if levels > LEVEL_LIMIT {
        return Err(Refusal::Sql(too_many(alloc, Which::Levels)?));
    }
    Ok(())
}

// What stands against the bound, the limits among it.
fn check_level(
    alloc: Global,
    catalog: &Catalog,
    parent: &[u8],
    pending: Option<&[u8]>,
    partitions: &[&Entry],
    bound: &Bound,
    levels: usize,
) -> Result<(), Refusal>
    requires known { All (λ e. e.child.number < length catalog.now.tables) (map (λ e. e.now) partitions.now) }
    requires level { AreOfOneLevel bound.now (map bound_of (map (λ e. e.now) partitions.now)) }
    requires ordered { IsInPlainOrder (map bound_of (map (λ e. e.now) partitions.now)) }
    ensures { (h : History) → CatalogueStands catalog.now h →
        IsAnswer result (or_first (placing.bound_faults parent.now (option_map (λ n. n.now) pending.entry) (map (placing.child_name h) (map (λ e. e.now) partitions.now)) (map bound_of (map (λ e. e.now) partitions.now)) bound.now ++ placing.room_faults (length (map (λ e. e.now) partitions.now)) (added h) levels) tt) }
{
    check_beside(alloc, catalog, parent, pending, partitions, bound)?;
    check_room(alloc, partitions.len(), catalog.entry_count(), levels)
}

// The name of the pending partition of a table.
fn pending_name<'c>(
    catalog: &'c Catalog,
    txs: &TxTable,
    table: TableNo,
    session: u32,
) -> Option<&'c [u8]>
    requires { AreTogether txs.now catalog.now session }
    ensures { (h : History) → TableStands txs.now h → CatalogueStands catalog.now h →
        option_map (λ n. n.now) result ≡ placing.pending_name h session table.number }
{
    match catalog.pending_of(txs, session, table) {
        Some(child) => Some(catalog.name_of(child)),
        None => None,
    }
}

/// Whether a table that is not partitioned, or has no partition yet, may stand below another under a
/// bound of that one's level. It is refused as a second default (42P17), as a default beside a pending
/// partition (55000), where its modulus does not suit a sibling's or its bound overlaps a sibling's
/// (42P17), pending ones among them, and past 1,024 partitions, `ENTRY_LIMIT` of them in the run, or 8
/// tables on a path (54000).
pub fn check_place(
    alloc: Global,
    catalog: &Catalog,
    txs: &TxTable,
    parent: TableNo,
    bound: &Bound,
    session: u32,
) -> Result<(), Refusal>
    requires known { parent.number < length catalog.now.tables }
    requires siblings { AreTogether txs.now catalog.now session }
    requires takes { (h : History) → CatalogueStands catalog.now h → TakesBound (made_at h parent.number).shape bound.now }
    ensures { (h : History) → TableStands txs.now h → CatalogueStands catalog.now h →
        IsAnswer result (or_first (placing.place_faults h session parent.number bound.now 1) tt) }
{
    let partitions = catalog.partitions(alloc, txs, parent, session)?;
    let pending = pending_name(catalog, txs, parent, session);
    let name = catalog.name_of(parent);
    let levels = catalog.levels_up(txs, parent, session) + 1;
    check_level(alloc, catalog, name, pending, &partitions, bound, levels)
}
