//! Reads expressions of SQL from standard input, one in each line, and writes the tree of each as one
//! line, each operator before its operands, or why it is refused.
//!
//! In a line, `` `3 ab` `` stands for `ababab`, so that the limits can be reached, and `` `10` `` for the byte
//! 10, which a line cannot hold. A tree of more than 1,000 bytes is told by its length.
//!
//! That a text has this tree alone, and where a text is refused, is proved in `sql_expressions`. Here both
//! are seen: `stdin` has the texts, and `stdout` what was worked by hand from the grammar.

use crate::refused::write_refusal;
use crate::repeats::spelled_out;
use crate::trees::{write_number, write_tree};
use pg_values::NoMemory;
use sql_ast::Expr;
use sql_expressions::parse_expression;
use std::alloc::Global;

/// A tree of more bytes is told by its length.
const MOST_BYTES: usize = 1000;

fn write_read(alloc: Global, expr: &Expr, out: &mut Vec<u8>) -> Result<(), NoMemory> {
    let mut tree = Vec::new(alloc);
    write_tree(alloc, expr, &mut tree)?;
    if MOST_BYTES < tree.len() {
        out.extend_from_slice(b"a tree of ")?;
        write_number(tree.len() as u64, out)?;
        out.extend_from_slice(b" bytes")?;
    } else {
        out.extend_from_slice(&tree)?;
    }
    Ok(())
}

/// The tree of the expression in a line.
pub(crate) fn tree(alloc: Global, line: &[u8]) -> Result<Vec<u8>, NoMemory> {
    let mut out = Vec::new(alloc);
    let text = spelled_out(alloc, line)?;
    match parse_expression(alloc, &text) {
        Ok(expr) => write_read(alloc, &expr, &mut out)?,
        Err(refused) => write_refusal(&refused, &mut out)?,
    }
    Ok(out)
}
