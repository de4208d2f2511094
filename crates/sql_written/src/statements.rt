ghost use Rattle.std.specs.Prelude.{◌≡◌, ◌++◌, IfOk, OnErr, OnOk};
ghost use Rattle.sql_ast.specs.Statements.{statement_tree};
ghost use Rattle.sql_written.specs.Statements as shown;

use crate::commands::write_command;
use crate::queries::write_query;
use pg_values::NoMemory;
use sql_ast::Statement;
use std::alloc::Global;

fn text(alloc: Global, statement: &Statement) -> Result<Vec<u8>, NoMemory>
    ensures { IfOk result (λ text. text.items ≡ shown.written (statement_tree statement.now)) }
{
    let mut text = Vec::new(alloc);
    match statement {
        Statement::Command(command) => write_command(command, &mut text)?,
        Statement::Query(query) => write_query(query, &mut text)?,
    }
    Ok(text)
}

/// Appends the text of a statement: all of it or, where memory runs out, nothing.
///
/// A statement that a parser answers is read back from it (`statements_read_back`). One that is made in
/// another way may have no text, as a name of no bytes has none: what is appended is then read as
/// something else, or refused.
pub fn write_statement(
    alloc: Global,
    statement: &Statement,
    out: &mut Vec<u8>,
) -> Result<(), NoMemory>
    ensures ok { OnOk result (out.new.items ≡ out.old.items ++ shown.written (statement_tree statement.now)) }
    ensures err { OnErr result (out.new.items ≡ out.old.items) }
{
    let text = text(alloc, statement)?;
    out.extend_from_slice(&text)?;
    Ok(())
}
