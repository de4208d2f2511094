//! The trail lines of statements.

ghost use Rattle.std.specs.Prelude.{◌≡◌, ◌++◌, [], IfOk, OnOk, codes, count_by};
ghost use Rattle.std.specs.List.{flat_map};
ghost use Rattle.history.specs.History.{History};
ghost use Rattle.part_catalog.specs.Stands.{CatalogueStands};
ghost use Rattle.statement_runs.specs.Trails as spec;

use history::TableShape;
use part_catalog::Catalog;
use pg_values::{LeafId, NoMemory, TableNo};
use std::alloc::Global;

// ---- the name of a leaf

fn has_leaf(shape: &TableShape, leaf: LeafId) -> bool
    ensures { result ≡ spec.has_leaf leaf shape.now }
{
    match shape {
        TableShape::Leaf(own) => own.number == leaf.number,
        TableShape::Level(_) => false,
    }
}

// The name of the table that has the leaf.
fn leaf_name(catalog: &Catalog, leaf: LeafId) -> &[u8]
    ensures { (h : History) → CatalogueStands catalog.now h → result.now ≡ spec.leaf_name h leaf }
{
    let mut below = catalog.table_count();
    while below > 0 {
        below -= 1;
        let table = catalog.table(TableNo { number: below });
        if has_leaf(&table.shape, leaf) {
            return table.name.as_bytes();
        }
    }
    b""
}

// ---- the leaves, in the order of their first read

fn is_among(leaves: &[LeafId], leaf: LeafId) -> bool
    ensures { result ≡ spec.is_among leaves.now leaf }
{
    for other in leaves {
        if other.number == leaf.number {
            return true;
        }
    }
    false
}

fn firsts(alloc: Global, reads: &[LeafId]) -> Result<Vec<LeafId>, NoMemory>
    ensures { IfOk result (λ found. found.items ≡ spec.firsts reads.now) }
{
    let mut found = Vec::new(alloc);
    for leaf in reads {
        if !is_among(&found, *leaf) {
            found.push(*leaf)?;
        }
    }
    Ok(found)
}

fn times(reads: &[LeafId], leaf: LeafId) -> usize
    ensures { result ≡ spec.times reads.now leaf }
{
    let mut count = 0;
    for other in reads {
        if other.number == leaf.number {
            count += 1;
        }
    }
    count
}

// ---- the line

fn write_often(times: usize, out: &mut Vec<u8>) -> Result<(), NoMemory>
    ensures { OnOk result (out.new.items ≡ out.old.items ++ spec.often times) }
{
    if times > 1 {
        let mut digits = itoa::Buffer::new();
        out.push(b'*')?;
        out.extend_from_slice(digits.format(times).as_bytes())?;
    }
    Ok(())
}

fn write_read(
    catalog: &Catalog,
    reads: &[LeafId],
    leaf: LeafId,
    out: &mut Vec<u8>,
) -> Result<(), NoMemory>
    ensures { OnOk result ((h : History) → CatalogueStands catalog.now h → out.new.items ≡ out.old.items ++ spec.read_text h reads.now leaf) }
{
    out.push(b' ')?;
    out.extend_from_slice(leaf_name(catalog, leaf))?;
    write_often(times(reads, leaf), out)
}

fn write_each(
    catalog: &Catalog,
    reads: &[LeafId],
    leaves: &[LeafId],
    out: &mut Vec<u8>,
) -> Result<(), NoMemory>
    ensures { OnOk result ((h : History) → CatalogueStands catalog.now h → out.new.items ≡ out.old.items ++ flat_map (spec.read_text h reads.now) leaves.now) }
{
    for leaf in leaves {
        write_read(catalog, reads, *leaf, out)?;
    }
    Ok(())
}

fn write_reads(
    alloc: Global,
    catalog: &Catalog,
    reads: &[LeafId],
    out: &mut Vec<u8>,
) -> Result<(), NoMemory>
    ensures { OnOk result ((h : History) → CatalogueStands catalog.now h → out.new.items ≡ out.old.items ++ spec.reads_text h reads.now) }
{
    if reads.is_empty() {
        out.extend_from_slice(b" -")?;
        return Ok(());
    }
    let leaves = firsts(alloc, reads)?;
    write_each(catalog, reads, &leaves, out)
}

fn write_line(
    alloc: Global,
    catalog: &Catalog,
    word: &[u8],
    rows: u64,
    reads: &[LeafId],
    out: &mut Vec<u8>,
) -> Result<(), NoMemory>
    ensures { OnOk result ((h : History) → CatalogueStands catalog.now h → out.new.items ≡ out.old.items ++ spec.trail_line word.now rows reads.now h) }
{
    let mut digits = itoa::Buffer::new();
    out.extend_from_slice(b"trail: ")?;
    out.extend_from_slice(word)?;
    out.push(b' ')?;
    out.extend_from_slice(digits.format(rows).as_bytes())?;
    out.extend_from_slice(b" reads")?;
    write_reads(alloc, catalog, reads, out)?;
    out.push(b'\n')?;
    Ok(())
}

/// Appends the trail line of a statement, where it is asked for: its word, how many rows it gave or changed, and
/// the leaves that it read.
pub(crate) fn write_trail(
    alloc: Global,
    catalog: &Catalog,
    trailed: bool,
    word: &[u8],
    rows: u64,
    reads: &[LeafId],
    out: &mut Vec<u8>,
) -> Result<(), NoMemory>
    ensures { OnOk result ((h : History) → CatalogueStands catalog.now h → out.new.items ≡ out.old.items ++ spec.trail_text trailed word.now rows reads.now h) }
{
    if trailed {
        return write_line(alloc, catalog, word, rows, reads, out);
    }
    Ok(())
}
