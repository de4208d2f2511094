//! Blocks of SQL, one in each line, written back: the statements of each, with semicolons between, or why it is refused.
//!
//! That what is written says the same is proved in `sql_written`, and where a block is refused in `sql_syntax`.

use crate::refused::write_refusal;
use pg_values::NoMemory;
use sql_ast::Statement;
use sql_syntax::parse_block;
use sql_written::write_statement;
use std::alloc::Global;

fn write_statements(
    alloc: Global,
    statements: &[Statement],
    out: &mut Vec<u8>,
) -> Result<(), NoMemory> {
    for (i, statement) in statements.iter().enumerate() {
        if 0 < i {
            out.extend_from_slice(b"; ")?;
        }
        write_statement(alloc, statement, out)?;
    }
    Ok(())
}

/// The block of a line, written back.
pub(crate) fn block(alloc: Global, line: &[u8]) -> Result<Vec<u8>, NoMemory> {
    let mut out = Vec::new(alloc);
    match parse_block(alloc, line) {
        Ok(statements) => write_statements(alloc, &statements, &mut out)?,
        Err(refused) => write_refusal(&refused, &mut out)?,
    }
    Ok(out)
}
