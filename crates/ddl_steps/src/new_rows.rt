ghost use Rattle.std.specs.Prelude.{◌≡◌, ◌||◌, not, is_some, true, false, All};
ghost use Rattle.std.specs.List.{list_any};
ghost use Rattle.bound_forms.specs.Accepts.{accepts_among, is_default, FitsBound, FitsSet};
ghost use Rattle.row_router.specs.declared.path.PathTest.TheVariants.{Bounds, Checks};
ghost use Rattle.row_router.specs.Paths.{refused, PartFits};
ghost use Rattle.row_router.specs.Trees.{key_of};
ghost use Rattle.bound_forms.specs.Bounds.{BoundOfKind};
ghost use Rattle.pg_values.specs.KeyKinds.{IsNotNull};
ghost use Rattle.ddl_steps.specs.Fitting.{KeyFits, SiblingsFit};

use bound_forms::{Bound, Key, Level, bound_accepts};
use part_bounds::{BoundSet, find_child_uncounted};
use pg_values::{Row, ValueKey};
use row_router::{LevelKey, PathPart, PathTest, fits_path};
use row_store::RowTest;

/// The rows that a table may not have below a new bound: those that the bound does not accept among its
/// siblings, and those that a table above refuses.
#[derive(Clone, Copy)]
pub(crate) struct NewRows<'p> {
    pub(crate) level: &'p Level,
    pub(crate) siblings: &'p BoundSet<ValueKey>,
    pub(crate) bound: &'p Bound,
    pub(crate) path: &'p [PathPart],
}

// The bound accepts the key among its siblings.
fn accepts_key<Q: Key>(siblings: &BoundSet<ValueKey>, bound: &Bound, key: &Q) -> bool
    requires fits { FitsBound (Q.values key.now) bound.now }
    requires of_kind { BoundOfKind IsNotNull bound.now }
    requires all_fit { FitsSet siblings.now (Q.values key.now) }
    requires apart { is_default bound.now ≡ true → list_any is_default siblings.now ≡ false }
    ensures { result ≡ accepts_among siblings.now (Q.values key.now) bound.now }
{
    match bound {
        Bound::Default => find_child_uncounted(siblings, key).is_none(),
        _ => bound_accepts(&ValueKey, bound, key),
    }
}

impl<'p> RowTest for NewRows<'p> {
    ghost suits = { λ t row. KeyFits t.level.now t.bound.now row × SiblingsFit t.level.now t.siblings.now t.bound.now row × All (PartFits row) t.path.now };

    ghost broken = { λ t row. not (accepts_among t.siblings.now (key_of t.level.now row) t.bound.now) || (is_some (refused Bounds row t.path.now) || is_some (refused Checks row t.path.now)) };

    fn breaks(&self, row: &Row) -> bool {
        let columns = self.level.columns.as_slice();
        !accepts_key(self.siblings, self.bound, &LevelKey { row, columns })
            || fits_path(self.path, row, PathTest::Bounds).is_some()
            || fits_path(self.path, row, PathTest::Checks).is_some()
    }
}
