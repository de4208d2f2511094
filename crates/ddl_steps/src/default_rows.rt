ghost use Rattle.bound_forms.specs.Accepts.{accepts};
ghost use Rattle.row_router.specs.Trees.{key_of};
ghost use Rattle.ddl_steps.specs.Fitting.{KeyFits};

use bound_forms::{Bound, Level, bound_accepts};
use pg_values::{Row, ValueKey};
use row_router::LevelKey;
use row_store::RowTest;

/// The rows that a default partition may not keep beside a new bound: those that the bound accepts.
#[derive(Clone, Copy)]
pub(crate) struct DefaultRows<'p> {
    pub(crate) level: &'p Level,
    pub(crate) bound: &'p Bound,
}

impl<'p> RowTest for DefaultRows<'p> {
    ghost suits = { λ t row. KeyFits t.level.now t.bound.now row };

    ghost broken = { λ t row. accepts (key_of t.level.now row) t.bound.now };

    fn breaks(&self, row: &Row) -> bool {
        let columns = self.level.columns.as_slice();
        bound_accepts(&ValueKey, self.bound, &LevelKey { row, columns })
    }
}
