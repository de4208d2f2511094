ghost use Rattle.std.specs.Prelude.{◌≡◌, IfOk};
ghost use Rattle.bound_forms.specs.Accepts as accepts;

use crate::Point;
use crate::point::copy_point;
use pg_values::{NoMemory, Row, copy_row};
use std::alloc::Global;

/// The greatest modulus of a HASH bound.
pub const MOST_MODULUS: u32 = 2_147_483_647;

/// What the keys of one partition have in common.
#[derive(Debug, Drop)]
pub enum Bound {
    /// The keys without null from the lower point on, below the upper point.
    Range { lower: Point, upper: Point },
    /// The listed values, NULL where it is among them.
    List { values: Row },
    /// The keys whose hash leaves the remainder.
    Hash { modulus: u32, remainder: u32 },
    /// What no other partition of the table accepts.
    Default,
}

/// Whether the bound is DEFAULT.
pub fn is_default(b: &Bound) -> bool
    ensures { result ≡ accepts.is_default b.now }
{
    matches!(b, Bound::Default)
}

/// A bound equal to `b`.
pub fn copy_bound(alloc: Global, b: &Bound) -> Result<Bound, NoMemory>
    ensures { IfOk result (λ copy. copy ≡ b.now) }
{
    match b {
        Bound::Range { lower, upper } => {
            let lower = copy_point(lower)?;
            let upper = copy_point(upper)?;
            Ok(Bound::Range { lower, upper })
        }
        Bound::List { values } => {
            let values = copy_row(alloc, values)?;
            Ok(Bound::List { values })
        }
        Bound::Hash { modulus, remainder } => Ok(Bound::Hash {
            modulus: *modulus,
            remainder: *remainder,
        }),
        Bound::Default => Ok(Bound::Default),
    }
}
