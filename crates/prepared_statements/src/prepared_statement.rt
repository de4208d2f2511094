ghost use Rattle.std.specs.Prelude.{◌≡◌, ◌∷◌, [], IfOk};
ghost use Rattle.pg_values.specs.Refusals.{IsAnswer};
ghost use Rattle.refusals.specs.Refusals.{left_out as left_out_of};
ghost use Rattle.sql_ast.specs.Expressions.{trees};
ghost use Rattle.sql_ast.specs.Queries.{row_tree};
ghost use Rattle.sql_binder.specs.Inserts as inserts;
ghost use Rattle.expression_binder.specs.Firsts.{or_first, IsAnswerBy};
ghost use Rattle.prepared_statements.specs.Kept.{seen};
ghost use Rattle.prepared_statements.specs.Names.{name_of};
ghost use Rattle.prepared_statements.specs.Prepared as spec;

use crate::bind_parameters;
use crate::kinds::declared_of;
use crate::numbers::greatest_number;
use expression_binder::{Param, ScopeItem, check_count};
use pg_values::{Kind, NoMemory, PgText, Refusal};
use refusals::left_out;
use sql_ast::{ExprList, RowStatement};
use std::alloc::Global;
use std::rc::Rc;

/// A statement that was prepared, under its name, with the kinds that are declared of its first parameters. In a session
/// it is told from others by its name.
#[derive(Debug, Drop)]
pub struct PreparedStatement {
    name: PgText,
    kinds: Vec<Kind>,
    statement: Rc<RowStatement>,
}

fn count_of(arguments: &ExprList) -> usize
    ensures { result ≡ inserts.count_of (trees arguments.now) }
{
    arguments.as_slice().len()
}

fn refuse(alloc: Global, word: &[u8]) -> Result<(), Refusal>
    ensures { IsAnswer result (or_first (left_out_of word.now ∷ []) tt) }
{
    Err(Refusal::Sql(left_out(alloc, word)?))
}

fn check_select(alloc: Global, statement: &RowStatement) -> Result<(), Refusal>
    ensures { IsAnswer result (or_first (spec.not_explained (row_tree statement.now)) tt) }
{
    match statement {
        RowStatement::Select(_) => Ok(()),
        RowStatement::Insert(_) => refuse(alloc, b"INSERT"),
        RowStatement::Update(_) => refuse(alloc, b"UPDATE"),
        RowStatement::Delete(_) => refuse(alloc, b"DELETE"),
    }
}

impl PreparedStatement {
    /// A statement that shares its tree with the one that is given.
    pub(crate) fn new(
        alloc: Global,
        name: &PgText,
        kinds: Vec<Kind>,
        statement: &Rc<RowStatement>,
    ) -> Result<Self, NoMemory>
        ensures { IfOk result (λ s. seen s ≡ record { name = name.now; kinds = kinds.items; statement = row_tree statement.now.value }) }
    {
        Ok(PreparedStatement {
            name: name.copy(alloc)?,
            kinds,
            statement: statement.clone()?,
        })
    }

    pub(crate) fn name(&self) -> &[u8]
        ensures { result.now ≡ name_of self.now }
    {
        self.name.as_bytes()
    }

    /// What it executes, to be shared.
    pub fn statement(&self) -> &Rc<RowStatement>
        ensures { row_tree result.now.value ≡ (seen self.now).statement }
    {
        &self.statement
    }

    /// How many parameters it has: as many as are declared, and up to the greatest that it names.
    pub fn parameters(&self) -> u64
        ensures { result ≡ spec.parameters (seen self.now) }
    {
        let declared = self.kinds.len() as u64;
        declared.max(greatest_number(&self.statement))
    }

    /// As many arguments as parameters, else 42601: before any other refusal of its EXECUTE.
    pub fn check_count(&self, alloc: Global, arguments: &ExprList) -> Result<(), Refusal>
        ensures { IsAnswer result (or_first (spec.counted (seen self.now) (trees arguments.now)) tt) }
    {
        check_count(alloc, count_of(arguments), self.parameters() as usize)
    }

    /// EXPLAIN takes an EXECUTE of a SELECT alone; anything else is 0A000 with its first word.
    pub fn check_explained(&self, alloc: Global) -> Result<(), Refusal>
        ensures { IsAnswer result (or_first (spec.not_explained (seen self.now).statement) tt) }
    {
        check_select(alloc, &self.statement)
    }

    /// The parameters with the kinds and values that the arguments of an EXECUTE give them, over the tables of the
    /// statement; or the first fault of the arguments.
    pub fn bind_arguments(
        &self,
        alloc: Global,
        tables: &[ScopeItem],
        arguments: &ExprList,
    ) -> Result<Vec<Param>, Refusal>
        ensures { IsAnswerBy (λ v. v.items) result (spec.arguments_of tables.now (seen self.now) (trees arguments.now)) }
    {
        let declared = declared_of(alloc, &self.kinds, count_of(arguments))?;
        bind_parameters(alloc, &self.statement, tables, &declared, arguments)
    }
}
