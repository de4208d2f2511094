//! Partition bounds of one level of a partitioned table: which keys each accepts, which of them
//! overlap, and the plain order in which they stand.
//!
//! A RANGE bound `FROM (lower) TO (upper)` contains the points from its lower point on and below
//! its upper point. For n key columns a point is a list of n + 1 edges, each MINVALUE, a value or
//! MAXVALUE, compared edge by edge; the points of a bound and the key of a row are filled up with
//! MINVALUE. A key with a null is accepted by no range. A LIST bound accepts the values that it
//! lists, NULL among them; a HASH bound the keys whose hash leaves its remainder; DEFAULT what no
//! other bound of the level accepts.
//!
//! In plain order ranges stand by lower point, lists by their least value, remainders by modulus,
//! and the default last. `Level` is what bounds are bounds of: a strategy and key columns.
#![tactic(auto)]

mod accepting;
mod inside;
mod key;
mod laws;
mod level;
mod listed;
mod moduli;
mod ordered;
mod partition_bound;
mod point;

pub use accepting::{bound_accepts, leaves_remainder};
pub use inside::within;
pub use key::{Key, RowKey, has_null, is_null, row_hash};
pub use laws::{
    added_in_either_order, at_most_one_accepts, default_accepts_the_rest, level_bounds_compare,
    level_bounds_fit, level_bounds_have_a_kind, level_keys_fit, no_common_key,
    overlap_is_shared_residue, plain_order_is_sorted, plain_order_keeps, rows_give_keys,
    within_accepts,
};
pub use level::{KeyColumn, KeyColumns, Level};
pub use listed::{cmp_least, is_same, lists};
pub use moduli::{moduli_suit, modulus_of, remainders_meet};
pub use ordered::comes_after;
pub use partition_bound::{Bound, MOST_MODULUS, copy_bound, is_default};
pub use point::{Edge, Fill, Point, cmp_end, cmp_fill, cmp_points};
