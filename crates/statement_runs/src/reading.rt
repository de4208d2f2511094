ghost use Rattle.std.specs.Prelude.{◌≡◌, ◌≤◌, ℕ, IfOk, List, Result, length, map};
ghost use Rattle.pg_values.specs.declared.fault.Fault.{Fault as OneFault};
ghost use Rattle.sessions.specs.Answers.{IsAnswerBy};
ghost use Rattle.sql_ast.specs.Statements.{StatementTree, statement_tree};
ghost use Rattle.statement_runs.specs.ReadBlocks.{IsReadAs};
ghost use Rattle.statement_runs.specs.Reading as reading;

use crate::faults::fault;
use pg_values::Refusal;
use sql_ast::Statement;
use sql_syntax::{MOST_STATEMENTS, parse_block};
use std::alloc::Global;

/// The statements of a block.
pub fn read_block(alloc: Global, text: &[u8]) -> Result<Vec<Statement>, Refusal>
    ensures is { IsAnswerBy (λ v. map statement_tree v.items) result (reading.read_block text.now) }
    ensures few { IfOk result (λ v. length v.items ≤ MOST_STATEMENTS) }
{
    match parse_block(alloc, text) {
        Ok(statements) => Ok(statements),
        Err(refused) => Err(Refusal::Sql(fault(alloc, refused)?)),
    }
}

/// What is read of a block is what the grammar says of its text: accepted just where the text is a block,
/// with its one list of statements, and refused with the fault of its place. The call does nothing.
pub fn blocks_are_read_by_the_grammar()
    ensures said { (text : List ℕ) → IsReadAs text (reading.read_block text) }
    ensures one { (text : List ℕ) (read : Result (List StatementTree) OneFault) → IsReadAs text read → read ≡ reading.read_block text }
{}
