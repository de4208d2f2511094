ghost use Rattle.std.specs.Prelude.{◌≡◌, true, length, slice_index_or};
ghost use Rattle.bound_forms.specs.declared.partition_bound.Bound.TheVariants.{Default as ByDefault};
ghost use Rattle.bound_forms.specs.Accepts.{is_default};

use part_bounds::BoundSet;
use pg_values::ValueKey;

/// The bounds of a table without partitions, which is kept as the one child of a level without key columns would be.
#[derive(Drop)]
pub struct PlainSet {
    pub(crate) set: BoundSet<ValueKey>,
    ghost one: { length set ≡ 1 },
    ghost default: { is_default (slice_index_or set 0 ByDefault) ≡ true },
}
