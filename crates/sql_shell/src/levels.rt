//! What becomes of a level's bounds, of its keys and of conditions on these.
//!
//! A line begins with the level: R, L or H, and a letter for the kind of each key column (i integer, b bigint, t text,
//! d date, o boolean). Behind it stand items, parted by semicolons, and each has an answer:
//!
//! - `= BOUND`: the bound that is meant, or its fault, whose texts are parted by bars;
//! - `BOUND`, which is added where it can be: `+`, or its fault, or `m4` where it does not suit the modulus 4 of a
//!   sibling, `o2` where it overlaps the sibling at a place, and `i2` where it lies inside that one;
//! - `? VALUES`: the place of the partition that accepts the key, or `-`;
//! - `where CONDITION`: the places of the partitions that the condition keeps, or `-`;
//! - `ranges N`: N ranges FROM ('10000') TO ('10001'), FROM ('10002') TO ('10003') and so on are added, and `search N`: the
//!   keys 10000, 10001 and so on are looked up, with how many of N come to their own range or to none, and the fewest and
//!   the most comparisons of values that one took. Numbers are searched by the leads of points, and such comparisons are not
//!   among them; texts have none.
//!
//! In a bound a number is an integer, `l:5` a bigint, `'x` a string literal, `s:x` a text, `d:0` a day, `t` and `f`
//! truth values, and `?x` an expression with the fault 0A000 of x. A condition is written behind its parts: `x 3 =`,
//! `x n` for IS NULL, `!` for NOT, `&2` and `|2` for AND and OR of two parts, `F` for FALSE. `x` and `y` are the key
//! columns, `z` is another column and `$` a parameter without an argument.
//!
//! That all of it is right is proved in the crates that are called. Here it is seen; the hashes of `stdout` were worked
//! out by `bench/hashes.py`.

ghost use Rattle.std.specs.Prelude.{All, IfOk};
ghost use Rattle.bound_forms.specs.Levels.{IsOfLevel};

use crate::bound_sets::{add_ranges, find_key, search_keys, take_bound};
use crate::bound_words::{level_of, number};
use crate::counted_keys::CountedKey;
use crate::kept_partitions::push_kept;
use crate::told_bounds::{push_answer, tell_checked};
use bound_forms::Level;
use part_bounds::{BoundSet, make_set};
use pg_values::NoMemory;
use std::alloc::Global;
use std::cell::Cell;

// The answer to an item.
fn answer(
    alloc: Global,
    level: &Level,
    set: &mut BoundSet<CountedKey<'_>>,
    count: &Cell<u64>,
    item: &str,
    out: &mut Vec<u8>,
) -> Result<(), NoMemory>
    requires { All (IsOfLevel level.now) set.old }
    ensures { IfOk result (λ told. All (IsOfLevel level.now) set.new) }
{
    if let Some(words) = item.strip_prefix("= ") {
        return tell_checked(alloc, level, words, out);
    }
    if let Some(words) = item.strip_prefix("? ") {
        return find_key(alloc, level, set, words, out);
    }
    if let Some(words) = item.strip_prefix("where ") {
        return push_kept(alloc, level, set, words, out);
    }
    if let Some(words) = item.strip_prefix("ranges ") {
        return add_ranges(alloc, level, set, number(words));
    }
    if let Some(words) = item.strip_prefix("search ") {
        return search_keys(alloc, level, set, count, number(words), out);
    }
    let told = take_bound(alloc, level, set, item)?;
    push_answer(alloc, told, out)
}

/// The answers to the items of a line.
pub(crate) fn answers(alloc: Global, line: &str) -> Result<Vec<u8>, NoMemory> {
    let (level_words, items) = line.split_once(' ').unwrap_or((line, ""));
    let level = level_of(alloc, level_words)?;
    let count = Cell::new(0);
    let mut set = make_set(alloc, Vec::new(alloc), CountedKey { count: &count })?;
    let mut out = Vec::new(alloc);
    for item in items.split("; ") {
        if !out.is_empty() {
            out.push(b' ')?;
        }
        answer(alloc, &level, &mut set, &count, item, &mut out)?;
    }
    Ok(out)
}
