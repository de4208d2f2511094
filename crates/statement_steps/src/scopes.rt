ghost use Rattle.std.specs.Prelude.{◌≡◌, IfOk, map};
ghost use Rattle.statement_steps.specs.Scopes as scopes;

use expression_binder::ScopeColumn;
use history::Column;
use pg_values::NoMemory;
use std::alloc::Global;

fn scope_column(alloc: Global, column: &Column) -> Result<ScopeColumn, NoMemory>
    ensures { IfOk result (λ c. c ≡ scopes.scope_column column.now) }
{
    Ok(ScopeColumn {
        name: column.name.copy(alloc)?,
        kind: column.kind,
    })
}

/// What the names of a statement stand for: the columns of its table.
pub fn scope_columns(alloc: Global, columns: &[Column]) -> Result<Vec<ScopeColumn>, NoMemory>
    ensures { IfOk result (λ v. v.items ≡ map scopes.scope_column columns.now) }
{
    let mut named = Vec::new(alloc);
    for column in columns {
        named.push(scope_column(alloc, column)?)?;
    }
    Ok(named)
}
