ghost use Rattle.std.specs.Prelude.{◌≡◌, ◌++◌, ◌∷◌, [], OnErr, OnOk, if◌then◌else◌};
ghost use Rattle.std.specs.List.{list_any};
ghost use Rattle.pg_values.specs.Refusals.{IsAnswer};
ghost use Rattle.sql_ast.specs.Queries.{row_tree};
ghost use Rattle.expression_binder.specs.Firsts.{or_first, IsAnswerBy};
ghost use Rattle.prepared_statements.specs.Kept.{listed, seen};
ghost use Rattle.prepared_statements.specs.Prepared as spec;

use crate::PreparedStatement;
use crate::kinds::kinds_of;
use crate::places::Places;
use pg_values::{NoMemory, PgText, Refusal};
use refusals::{no_prepared_statement, prepared_statement_is_there};
use sql_ast::{NameList, RowStatement};
use std::alloc::Global;
use std::rc::Rc;

/// The prepared statements of a session, in the order in which they were prepared. Their names differ.
#[derive(Drop)]
pub struct PreparedList {
    statements: Places,
}

impl PreparedList {
    pub fn new(alloc: Global) -> Self
        ensures { listed result ≡ [] }
    {
        PreparedList {
            statements: Places::new(alloc),
        }
    }

    fn has(&self, name: &[u8]) -> bool
        ensures { result ≡ list_any (spec.is_called name.now) (listed self.now) }
    {
        self.statements.has(name)
    }

    fn check_new(&self, alloc: Global, name: &[u8]) -> Result<(), Refusal>
        ensures { IsAnswer result (or_first (spec.name_faults (listed self.now) name.now) tt) }
    {
        if self.has(name) {
            return Err(Refusal::Sql(prepared_statement_is_there(alloc, name)?));
        }
        Ok(())
    }

    fn add(&mut self, statement: PreparedStatement) -> Result<(), NoMemory>
        ensures added { OnOk result (listed self.new ≡ (if list_any (spec.is_called statement.name) (listed self.old) then listed self.old else listed self.old ++ seen statement ∷ [])) }
        ensures kept { OnErr result (listed self.new ≡ listed self.old) }
    {
        self.statements.add(statement)?;
        Ok(())
    }

    /// PREPARE: one statement more; or 42P05 where one of the name is there, then 42704 for the first type that is none.
    /// Where it is refused, or memory runs out, the list stays as it was.
    pub fn prepare(
        &mut self,
        alloc: Global,
        name: &PgText,
        types: &NameList,
        statement: &Rc<RowStatement>,
    ) -> Result<(), Refusal>
        ensures answer { IsAnswerBy (λ _. listed self.new) result (spec.prepared (listed self.old) name.now types.now (row_tree statement.now.value)) }
        ensures kept { OnErr result (listed self.new ≡ listed self.old) }
    {
        self.check_new(alloc, name.as_bytes())?;
        let kinds = kinds_of(alloc, types.as_slice())?;
        let prepared = PreparedStatement::new(alloc, name, kinds, statement)?;
        Ok(self.add(prepared)?)
    }

    /// The statement of the name, for an EXECUTE; or 26000.
    pub fn find(&self, alloc: Global, name: &[u8]) -> Result<&PreparedStatement, Refusal>
        ensures { IsAnswerBy (λ s. seen s.now) result (spec.found (listed self.now) name.now) }
    {
        match self.statements.find(name) {
            Some(statement) => Ok(statement),
            None => Err(Refusal::Sql(no_prepared_statement(alloc, name)?)),
        }
    }

    /// DEALLOCATE: all but the statement of the name; or 26000, and the list stays as it was.
    pub fn deallocate(&mut self, alloc: Global, name: &[u8]) -> Result<(), Refusal>
        ensures answer { IsAnswerBy (λ _. listed self.new) result (spec.deallocated (listed self.old) name.now) }
        ensures kept { OnErr result (listed self.new ≡ listed self.old) }
    {
        if self.statements.remove(name)? {
            return Ok(());
        }
        Err(Refusal::Sql(no_prepared_statement(alloc, name)?))
    }

    /// DEALLOCATE ALL.
    pub fn deallocate_all(&mut self)
        ensures { listed self.new ≡ [] }
    {
        self.statements.clear();
    }
}
