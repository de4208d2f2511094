ghost use Rattle.std.specs.Prelude.{◌≡◌, All};
ghost use Rattle.std.specs.List.{list_any};
ghost use Rattle.row_router.specs.Paths as paths;
ghost use Rattle.row_router.specs.Paths.{check_refuses, place_refuses, refused, CheckFits, PartFits, PlaceFits};

use crate::{LevelKey, PathPart, Place};
use bound_forms::bound_accepts;
use history::KeptCheck;
use part_bounds::accepts;
use pg_values::{Row, TableNo, ValueKey};

/// What of a path is tested.
#[derive(Clone, Copy, Debug, PartialEq, Eq)]
pub enum PathTest {
    Bounds,
    Checks,
}

// Whether the parent puts the row elsewhere, or nowhere.
fn refuses_at(place: &Place, row: &Row) -> bool
    requires { PlaceFits row.now place.now }
    ensures { result ≡ place_refuses row.now place.now }
{
    let columns = place.level.columns.as_slice();
    !accepts(&place.bounds, place.child, &LevelKey { row, columns })
}

fn refuses_by(check: &KeptCheck, row: &Row) -> bool
    requires { CheckFits row.now check.now }
    ensures { result ≡ check_refuses row.now check.now }
{
    let columns = check.level.columns.as_slice();
    !bound_accepts(&ValueKey, &check.bound, &LevelKey { row, columns })
}

fn refuses_by_one(checks: &[KeptCheck], row: &Row) -> bool
    requires { All (CheckFits row.now) checks.now }
    ensures { result ≡ list_any (check_refuses row.now) checks.now }
{
    for check in checks {
        if refuses_by(check, row) {
            return true;
        }
    }
    false
}

fn refuses(part: &PathPart, row: &Row, what: PathTest) -> bool
    requires { PartFits row.now part.now }
    ensures { result ≡ paths.refuses what row.now part.now }
{
    match what {
        PathTest::Bounds => match &part.place {
            Some(place) => refuses_at(place, row),
            None => false,
        },
        PathTest::Checks => refuses_by_one(part.checks.as_slice(), row),
    }
}

/// The nearest table above the row whose place, or one of whose kept CHECKs, refuses it.
pub fn fits_path(path: &[PathPart], row: &Row, what: PathTest) -> Option<TableNo>
    requires { All (PartFits row.now) path.now }
    ensures { result ≡ refused what row.now path.now }
{
    for part in path {
        if refuses(part, row, what) {
            return Some(part.table);
        }
    }
    None
}
