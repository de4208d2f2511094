//! The lines of a node: behind an arrow, further in with each level.

ghost use Rattle.std.specs.Prelude.{◌≡◌, ◌≤◌, ◌++◌, OnOk, IfOk, decimal, map, replicate};
ghost use Rattle.plan_text.specs.Nodes as nodes;

use pg_values::{NoMemory, PgText};
use plan_tree::Count;
use std::alloc::Global;

fn write_spaces(count: usize, out: &mut Vec<u8>) -> Result<(), NoMemory>
    ensures { OnOk result (out.new.items ≡ out.old.items ++ replicate count 32) }
{
    for _ in 0..count {
        out.push(b' ')?;
    }
    Ok(())
}

fn write_arrow(depth: usize, out: &mut Vec<u8>) -> Result<(), NoMemory>
    requires { depth ≤ 100 }
    ensures { OnOk result (out.new.items ≡ out.old.items ++ nodes.arrow depth) }
{
    if depth == 0 {
        return Ok(());
    }
    write_spaces(6 * depth - 4, out)?;
    out.extend_from_slice(b"->  ")?;
    Ok(())
}

fn write_number(number: u64, out: &mut Vec<u8>) -> Result<(), NoMemory>
    ensures { OnOk result (out.new.items ≡ out.old.items ++ decimal number) }
{
    let mut digits = itoa::Buffer::new();
    out.extend_from_slice(digits.format(number as u128).as_bytes())?;
    Ok(())
}

// What ANALYZE tells of a node.
fn write_count(count: Count, out: &mut Vec<u8>) -> Result<(), NoMemory>
    ensures { OnOk result (out.new.items ≡ out.old.items ++ nodes.count_text count) }
{
    if count.loops == 0 {
        out.extend_from_slice(b" (never executed)")?;
        return Ok(());
    }
    out.extend_from_slice(b" (rows=")?;
    write_number(count.rows, out)?;
    out.extend_from_slice(b" loops=")?;
    write_number(count.loops, out)?;
    out.push(b')')?;
    Ok(())
}

// The text of a node, and what was counted of it behind.
fn write_counted(text: &[u8], count: Option<Count>, out: &mut Vec<u8>) -> Result<(), NoMemory>
    ensures { OnOk result (out.new.items ≡ out.old.items ++ nodes.counted text.now count) }
{
    out.extend_from_slice(text)?;
    match count {
        None => Ok(()),
        Some(count) => write_count(count, out),
    }
}

fn node_line(
    alloc: Global,
    depth: usize,
    text: &[u8],
    count: Option<Count>,
) -> Result<PgText, NoMemory>
    requires { depth ≤ 100 }
    ensures { IfOk result (λ l. l ≡ nodes.arrow depth ++ nodes.counted text.now count) }
{
    let mut line = Vec::new(alloc);
    write_arrow(depth, &mut line)?;
    write_counted(text, count, &mut line)?;
    PgText::from_vec(alloc, line)
}

fn detail_line(alloc: Global, depth: usize, text: &[u8]) -> Result<PgText, NoMemory>
    requires { depth ≤ 100 }
    ensures { IfOk result (λ l. l ≡ nodes.detail_line depth text.now) }
{
    let mut line = Vec::new(alloc);
    write_spaces(6 * depth + 2, &mut line)?;
    line.extend_from_slice(text)?;
    PgText::from_vec(alloc, line)
}

fn push_details(
    alloc: Global,
    depth: usize,
    details: &[PgText],
    out: &mut Vec<PgText>,
) -> Result<(), NoMemory>
    requires { depth ≤ 100 }
    ensures { OnOk result (out.new.items ≡ out.old.items ++ map (nodes.detail_line depth) details.now) }
{
    for detail in details {
        out.push(detail_line(alloc, depth, detail.as_bytes())?)?;
    }
    Ok(())
}

/// Appends the line of a node at a depth, with what was counted of it, and those of its details.
pub(crate) fn push_node(
    alloc: Global,
    depth: usize,
    text: &[u8],
    count: Option<Count>,
    details: &[PgText],
    out: &mut Vec<PgText>,
) -> Result<(), NoMemory>
    requires { depth ≤ 100 }
    ensures { OnOk result (out.new.items ≡ out.old.items ++ nodes.alone (nodes.counted text.now count) details.now depth) }
{
    out.push(node_line(alloc, depth, text, count)?)?;
    push_details(alloc, depth, details, out)
}
