//! A condition is asked of the bounds of a level: what its parts keep, beside what is known.

ghost use Rattle.std.specs.Prelude.{◌≡◌, ◌<◌, ◌≤◌, ◌+◌, ◌*◌, ◌^◌, ◌&&◌, ◌++◌, [], ◌∷◌, Some, ℕ, All, length, map, nat_lt, slice_get, slice_index_or, true, false};
ghost use Rattle.pg_values.specs.declared.strategy.Strategy.TheVariants.{Range as ByRange, List as ByList, Hash as ByHash};
ghost use Rattle.bound_forms.specs.declared.partition_bound.Bound.TheVariants.{Default as ByDefault};
ghost use Rattle.bound_forms.specs.Accepts.{accepts};
ghost use Rattle.bound_forms.specs.Levels.{IsOfLevel};
ghost use Rattle.cond_logic.specs.Trees.{cond_tree, listed};
ghost use Rattle.part_bounds.specs.Stored.{stored};
ghost use Rattle.prune_steps.specs.Asking.{asked_by, known_in, all_known_in, reading_of, given_values};
ghost use Rattle.prune_steps.specs.Atoms as atoms;
ghost use Rattle.prune_steps.specs.AskedBy.{AskedByHash};
ghost use Rattle.prune_steps.specs.Atoms.{given, suits, ReadingFits};
ghost use Rattle.prune_steps.specs.Bits.{bit, AreBits};
ghost use Rattle.prune_steps.specs.Chains.{chain_keeps};
ghost use Rattle.prune_steps.specs.Kept.{range_keeps, list_keeps, reading_keeps, null_keeps, not_null_keeps, inverted_keeps, key_keeps, full_key, part_keeps, parts_keep, choices_keep, whole_keeps};
ghost use Rattle.prune_steps.specs.Runs.{ends_of};
ghost use Rattle.prune_steps.specs.Searches.{reading_searches, part_searches, parts_search, choices_search, whole_searches, searches_by_range};

use crate::KeptSet;
use crate::asking::{Asking, Read};
use crate::chain::{ChainOp, chain_op, keep_chain};
use crate::given_key::{ChainKey, GivenKey};
use crate::known::{gives_first, known_key_of, read_known};
use crate::lists::{keep_listed, keep_not_null, keep_null};
use crate::marks::add_default;
use bound_forms::{Key, at_most_one_accepts};
use cond_logic::{CompareOp, Cond, Truth3};
use part_bounds::{BoundSet, find_child, stands_in_plain_order};
use pg_values::{KeyKind, Steps, Strategy, Value};
use std::sync::ledger::Ledger;

// The children that the chain of a comparison keeps, behind the values that the columns before are equal to.
fn keep_behind<'c, K: KeyKind, L: Ledger>(
    asking: &'c Asking<'c>,
    set: &BoundSet<K>,
    root: &'c Cond,
    j: usize,
    op: ChainOp,
    value: &'c Value,
    kept: &mut KeptSet,
    steps: &mut Steps<L>,
)
    requires small { length set.now ≤ 1024 }
    requires level { All (IsOfLevel asking.now.level.now) set.now }
    requires by_range { asking.now.level.now.strategy ≡ ByRange }
    requires fits { suits (slice_get asking.now.level.now.columns j) value.now ≡ true }
    requires before { atoms.values_before (given (asked_by asking.now) false (known_in asking.now (cond_tree root.now))) j ≡ Some (given_values (given (asked_by asking.now) false (known_in asking.now (cond_tree root.now))) j) }
    ensures kept { AreBits (length set.now) kept.new (λ k. chain_keeps set.now (nat_lt (j + 1) (length asking.now.level.now.columns)) (ends_of (length asking.now.level.now.columns + 1) op (given_values (given (asked_by asking.now) false (known_in asking.now (cond_tree root.now))) j ++ value.now ∷ [])) (slice_index_or set.now k ByDefault)) }
    ensures counted { (d : ℕ) → 2 ^ d ≤ length (stored set.now) + 1 → steps.old + 2 * d ≤ steps.new }
    ensures cost { (d : ℕ) → 2 * length (stored set.now) + 2 < 2 ^ (d + 1) → steps.new ≤ steps.old + 2 * d }
{
    let columns = asking.level.columns.as_slice();
    let short = j + 1 < columns.len();
    let key = ChainKey {
        asking,
        root,
        first: j,
        last: value,
    };
    keep_chain(set, &key, op, short, kept, steps);
}

// What a comparison keeps at a level by range.
fn keep_compared<'c, K: KeyKind, L: Ledger>(
    asking: &'c Asking<'c>,
    set: &BoundSet<K>,
    root: &'c Cond,
    j: usize,
    op: CompareOp,
    value: &'c Value,
    kept: &mut KeptSet,
    steps: &mut Steps<L>,
)
    requires small { length set.now ≤ 1024 }
    requires level { All (IsOfLevel asking.now.level.now) set.now }
    requires by_range { asking.now.level.now.strategy ≡ ByRange }
    requires fits { suits (slice_get asking.now.level.now.columns j) value.now ≡ true }
    ensures kept { AreBits (length set.now) kept.new (λ k. range_keeps set.now (length asking.now.level.now.columns) (atoms.values_before (given (asked_by asking.now) false (known_in asking.now (cond_tree root.now))) j) j op value.now (slice_index_or set.now k ByDefault)) }
    ensures counted { (d : ℕ) → 2 ^ d ≤ length (stored set.now) + 1 → steps.old + d * searches_by_range (atoms.values_before (given (asked_by asking.now) false (known_in asking.now (cond_tree root.now))) j) op ≤ steps.new }
    ensures cost { (d : ℕ) → 2 * length (stored set.now) + 2 < 2 ^ (d + 1) → steps.new ≤ steps.old + 2 * d * searches_by_range (atoms.values_before (given (asked_by asking.now) false (known_in asking.now (cond_tree root.now))) j) op }
{
    match chain_op(op) {
        None => kept.fill(true),
        Some(op) => {
            let given = gives_first(asking, false, root, j);
            if given {
                keep_behind(asking, set, root, j, op, value, kept, steps)
            } else {
                kept.fill(true)
            }
        }
    }
}

// At a level by list.
fn keep_by_value<'c, K: KeyKind, L: Ledger>(
    asking: &'c Asking<'c>,
    set: &BoundSet<K>,
    root: &'c Cond,
    j: usize,
    op: CompareOp,
    value: &'c Value,
    kept: &mut KeptSet,
    steps: &mut Steps<L>,
)
    requires small { length set.now ≤ 1024 }
    requires level { All (IsOfLevel asking.now.level.now) set.now }
    requires by_list { asking.now.level.now.strategy ≡ ByList }
    requires fits { suits (slice_get asking.now.level.now.columns j) value.now ≡ true }
    ensures kept { AreBits (length set.now) kept.new (λ k. list_keeps set.now op value.now (slice_index_or set.now k ByDefault)) }
    ensures counted { (d : ℕ) → 2 ^ d ≤ length (stored set.now) + 1 → steps.old + d ≤ steps.new }
    ensures cost { (d : ℕ) → 2 * length (stored set.now) + 2 < 2 ^ (d + 1) → steps.new ≤ steps.old + 2 * d }
{
    let key = ChainKey {
        asking,
        root,
        first: 0,
        last: value,
    };
    keep_listed(set, op, &key, kept, steps);
}

// What a comparison keeps beside the equalities of its flattened AND.
fn keep_reading<'c, K: KeyKind, L: Ledger>(
    asking: &'c Asking<'c>,
    set: &BoundSet<K>,
    root: &'c Cond,
    reading: Read<'c>,
    kept: &mut KeptSet,
    steps: &mut Steps<L>,
)
    requires small { length set.now ≤ 1024 }
    requires level { All (IsOfLevel asking.now.level.now) set.now }
    requires fits { ReadingFits asking.now.level.now.columns (reading_of reading) }
    ensures kept { AreBits (length set.now) kept.new (λ k. reading_keeps (asked_by asking.now) set.now (given (asked_by asking.now) false (known_in asking.now (cond_tree root.now))) (reading_of reading.entry) (slice_index_or set.now k ByDefault)) }
    ensures counted { (d : ℕ) → 2 ^ d ≤ length (stored set.now) + 1 → steps.old + d * reading_searches (asked_by asking.now) (given (asked_by asking.now) false (known_in asking.now (cond_tree root.now))) (reading_of reading.entry) ≤ steps.new }
    ensures cost { (d : ℕ) → 2 * length (stored set.now) + 2 < 2 ^ (d + 1) → steps.new ≤ steps.old + 2 * d * reading_searches (asked_by asking.now) (given (asked_by asking.now) false (known_in asking.now (cond_tree root.now))) (reading_of reading.entry) }
{
    match reading {
        Read::Never => kept.fill(false),
        Read::Anything => kept.fill(true),
        Read::On(j, op, value) => match asking.level.strategy {
            Strategy::Range => keep_compared(asking, set, root, j, op, value, kept, steps),
            Strategy::List => keep_by_value(asking, set, root, j, op, value, kept, steps),
            Strategy::Hash => kept.fill(true),
        },
    }
}

// What IS NULL keeps.
fn keep_nulls<K: KeyKind>(
    strategy: Strategy,
    set: &BoundSet<K>,
    key: Option<usize>,
    kept: &mut KeptSet,
)
    requires { length set.now ≤ 1024 }
    ensures { AreBits (length set.now) kept.new (λ k. null_keeps strategy set.now key (slice_index_or set.now k ByDefault)) }
{
    match key {
        None => kept.fill(true),
        Some(_) => match strategy {
            Strategy::Range => {
                kept.fill(false);
                add_default(set, true, kept);
            }
            Strategy::List => keep_null(set, kept),
            Strategy::Hash => kept.fill(true),
        },
    }
}

// What IS NOT NULL keeps.
fn keep_values<K: KeyKind>(
    strategy: Strategy,
    set: &BoundSet<K>,
    key: Option<usize>,
    kept: &mut KeptSet,
)
    requires { length set.now ≤ 1024 }
    ensures { AreBits (length set.now) kept.new (λ k. not_null_keeps strategy key (slice_index_or set.now k ByDefault)) }
{
    match key {
        None => kept.fill(true),
        Some(_) => match strategy {
            Strategy::Range => kept.fill(true),
            Strategy::List => keep_not_null(set, kept),
            Strategy::Hash => kept.fill(true),
        },
    }
}

fn keep_inverted<'c, K: KeyKind>(
    asking: &'c Asking<'c>,
    set: &BoundSet<K>,
    inner: &'c Cond,
    kept: &mut KeptSet,
)
    requires { length set.now ≤ 1024 }
    ensures { AreBits (length set.now) kept.new (λ k. inverted_keeps (asked_by asking.now) (known_in asking.now (cond_tree inner.now)) (slice_index_or set.now k ByDefault)) }
{
    match inner {
        Cond::IsNull(x) => {
            let key = known_key_of(asking, x);
            keep_values(asking.level.strategy, set, key, kept)
        }
        _ => kept.fill(true),
    }
}

// The one child of a level by hash that accepts the key.
fn keep_key<K: KeyKind, Q: Key, L: Ledger>(
    set: &BoundSet<K>,
    key: &Q,
    kept: &mut KeptSet,
    steps: &mut Steps<L>,
)
    requires level { AskedByHash set.now (Q.values key.now) }
    requires small { length set.now ≤ 1024 }
    ensures kept { AreBits (length set.now) kept.new (λ k. accepts (Q.values key.now) (slice_index_or set.now k ByDefault)) }
    ensures cost { steps.new ≡ steps.old }
{
    stands_in_plain_order(set);
    at_most_one_accepts();
    kept.fill(false);
    if let Some(child) = find_child(set, key, steps) {
        kept.add_if(child, true);
    }
}

// By hash, the child that accepts the values which a flattened AND gives all key columns is met.
fn meet_accepting<'c, K: KeyKind, L: Ledger>(
    asking: &'c Asking<'c>,
    set: &BoundSet<K>,
    cond: &'c Cond,
    first: usize,
    kept: &mut KeptSet,
    steps: &mut Steps<L>,
)
    requires small { length set.now ≤ 1024 }
    requires level { All (IsOfLevel asking.now.level.now) set.now }
    requires by_hash { asking.now.level.now.strategy ≡ ByHash }
    ensures kept { AreBits (length set.now) kept.new (λ k. bit kept.old k && accepts (given_values (given (asked_by asking.now) true (known_in asking.now (cond_tree cond.now))) first) (slice_index_or set.now k ByDefault)) }
    ensures cost { steps.new ≡ steps.old }
{
    let key = GivenKey {
        asking,
        root: cond,
        first,
    };
    let mut own = KeptSet::none();
    keep_key(set, &key, &mut own, steps);
    kept.meet(&own);
}

// By hash, only the child that accepts the values which a flattened AND gives all key columns.
fn meet_key<'c, K: KeyKind, L: Ledger>(
    asking: &'c Asking<'c>,
    set: &BoundSet<K>,
    cond: &'c Cond,
    kept: &mut KeptSet,
    steps: &mut Steps<L>,
)
    requires small { length set.now ≤ 1024 }
    requires level { All (IsOfLevel asking.now.level.now) set.now }
    ensures kept { AreBits (length set.now) kept.new (λ k. key_keeps asking.now.level.now.strategy (full_key (asked_by asking.now) (known_in asking.now (cond_tree cond.now))) (slice_index_or set.now k ByDefault) && bit kept.old k) }
    ensures cost { steps.new ≡ steps.old }
{
    match asking.level.strategy {
        Strategy::Range => {}
        Strategy::List => {}
        Strategy::Hash => {
            let first = asking.level.columns.as_slice().len();
            let given = gives_first(asking, true, cond, first);
            if given {
                meet_accepting(asking, set, cond, first, kept, steps)
            }
        }
    }
}

// What a part of the flattened AND `root` keeps.
#[cycle(keeping)]
fn keep_part<'c, K: KeyKind, L: Ledger>(
    asking: &'c Asking<'c>,
    set: &BoundSet<K>,
    root: &'c Cond,
    cond: &'c Cond,
    kept: &mut KeptSet,
    steps: &mut Steps<L>,
)
    requires small { length set.now ≤ 1024 }
    requires level { All (IsOfLevel asking.now.level.now) set.now }
    ensures kept { AreBits (length set.now) kept.new (λ k. part_keeps (asked_by asking.now) set.now (given (asked_by asking.now) false (known_in asking.now (cond_tree root.now))) (known_in asking.now (cond_tree cond.now)) (slice_index_or set.now k ByDefault)) }
    ensures counted { (d : ℕ) → 2 ^ d ≤ length (stored set.now) + 1 → steps.old + d * part_searches (asked_by asking.now) (given (asked_by asking.now) false (known_in asking.now (cond_tree root.now))) (known_in asking.now (cond_tree cond.now)) ≤ steps.new }
    ensures cost { (d : ℕ) → 2 * length (stored set.now) + 2 < 2 ^ (d + 1) → steps.new ≤ steps.old + 2 * d * part_searches (asked_by asking.now) (given (asked_by asking.now) false (known_in asking.now (cond_tree root.now))) (known_in asking.now (cond_tree cond.now)) }
{
    match cond {
        Cond::And(list) => keep_parts(asking, set, root, list.as_slice(), kept, steps),
        Cond::Or(list) => {
            let choices = list.as_slice();
            if choices.len() == 1 {
                keep_parts(asking, set, root, choices, kept, steps)
            } else {
                keep_choices(asking, set, choices, kept, steps)
            }
        }
        Cond::Not(inner) => keep_inverted(asking, set, inner, kept),
        Cond::Compare(op, x, y) => {
            let reading = read_known(asking, *op, x, y);
            keep_reading(asking, set, root, reading, kept, steps)
        }
        Cond::IsNull(x) => {
            let key = known_key_of(asking, x);
            keep_nulls(asking.level.strategy, set, key, kept)
        }
        Cond::Const(Truth3::No) => kept.fill(false),
        Cond::Const(_) => kept.fill(true),
    }
}

// AND keeps the intersection.
#[cycle(keeping)]
fn keep_parts<'c, K: KeyKind, L: Ledger>(
    asking: &'c Asking<'c>,
    set: &BoundSet<K>,
    root: &'c Cond,
    parts: &'c [Cond],
    kept: &mut KeptSet,
    steps: &mut Steps<L>,
)
    requires small { length set.now ≤ 1024 }
    requires level { All (IsOfLevel asking.now.level.now) set.now }
    ensures kept { AreBits (length set.now) kept.new (λ k. parts_keep (asked_by asking.now) set.now (given (asked_by asking.now) false (known_in asking.now (cond_tree root.now))) (all_known_in asking.now (listed (map cond_tree parts.now))) (slice_index_or set.now k ByDefault)) }
    ensures counted { (d : ℕ) → 2 ^ d ≤ length (stored set.now) + 1 → steps.old + d * parts_search (asked_by asking.now) (given (asked_by asking.now) false (known_in asking.now (cond_tree root.now))) (all_known_in asking.now (listed (map cond_tree parts.now))) ≤ steps.new }
    ensures cost { (d : ℕ) → 2 * length (stored set.now) + 2 < 2 ^ (d + 1) → steps.new ≤ steps.old + 2 * d * parts_search (asked_by asking.now) (given (asked_by asking.now) false (known_in asking.now (cond_tree root.now))) (all_known_in asking.now (listed (map cond_tree parts.now))) }
{
    kept.fill(true);
    for part in parts {
        let mut own = KeptSet::none();
        keep_part(asking, set, root, part, &mut own, steps);
        kept.meet(&own);
    }
}

// OR keeps the union; each choice is a flattened AND of its own.
#[cycle(keeping)]
fn keep_choices<'c, K: KeyKind, L: Ledger>(
    asking: &'c Asking<'c>,
    set: &BoundSet<K>,
    choices: &'c [Cond],
    kept: &mut KeptSet,
    steps: &mut Steps<L>,
)
    requires small { length set.now ≤ 1024 }
    requires level { All (IsOfLevel asking.now.level.now) set.now }
    ensures kept { AreBits (length set.now) kept.new (λ k. choices_keep (asked_by asking.now) set.now (all_known_in asking.now (listed (map cond_tree choices.now))) (slice_index_or set.now k ByDefault)) }
    ensures counted { (d : ℕ) → 2 ^ d ≤ length (stored set.now) + 1 → steps.old + d * choices_search (asked_by asking.now) (all_known_in asking.now (listed (map cond_tree choices.now))) ≤ steps.new }
    ensures cost { (d : ℕ) → 2 * length (stored set.now) + 2 < 2 ^ (d + 1) → steps.new ≤ steps.old + 2 * d * choices_search (asked_by asking.now) (all_known_in asking.now (listed (map cond_tree choices.now))) }
{
    kept.fill(false);
    for choice in choices {
        let mut own = KeptSet::none();
        keep_whole(asking, set, choice, &mut own, steps);
        kept.join(&own);
    }
}

/// What a condition by itself keeps.
#[cycle(keeping)]
pub(crate) fn keep_whole<'c, K: KeyKind, L: Ledger>(
    asking: &'c Asking<'c>,
    set: &BoundSet<K>,
    cond: &'c Cond,
    kept: &mut KeptSet,
    steps: &mut Steps<L>,
)
    requires small { length set.now ≤ 1024 }
    requires level { All (IsOfLevel asking.now.level.now) set.now }
    ensures kept { AreBits (length set.now) kept.new (λ k. whole_keeps (asked_by asking.now) set.now (known_in asking.now (cond_tree cond.now)) (slice_index_or set.now k ByDefault)) }
    ensures counted { (d : ℕ) → 2 ^ d ≤ length (stored set.now) + 1 → steps.old + d * whole_searches (asked_by asking.now) (known_in asking.now (cond_tree cond.now)) ≤ steps.new }
    ensures cost { (d : ℕ) → 2 * length (stored set.now) + 2 < 2 ^ (d + 1) → steps.new ≤ steps.old + 2 * d * whole_searches (asked_by asking.now) (known_in asking.now (cond_tree cond.now)) }
{
    keep_part(asking, set, cond, cond, kept, steps);
    meet_key(asking, set, cond, kept, steps);
}
