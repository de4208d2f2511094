//! The partitions that a condition keeps.

ghost use Rattle.std.specs.Prelude.{◌≡◌, ◌<◌, All};
ghost use Rattle.bound_forms.specs.Levels.{IsOfLevel};

use crate::counted_keys::CountedKey;
use crate::key_conditions::condition;
use bound_forms::Level;
use cond_logic::{Binding, Cond};
use part_bounds::{BoundSet, len};
use pg_values::{NoMemory, Steps};
use prune_steps::Pruning;
use std::alloc::Global;
use std::marker::Brand;
use std::sync::ledger::{Blank, Ledger};

// Of ten partitions at most, the places of those that the condition keeps.
fn kept_by<L: Ledger>(
    alloc: Global,
    level: &Level,
    set: &BoundSet<CountedKey<'_>>,
    cond: &Cond,
    blank: Blank,
    out: &mut Vec<u8>,
) -> Result<(), NoMemory>
    requires level { All (IsOfLevel level.now) set.now }
    requires name { blank.name ≡ L.name }
    requires parts { blank.parts ≡ L.parts }
    requires some { 0 < blank.parts }
{
    if len(set) > 10 {
        return Ok(());
    }
    let mut steps = Steps::<L>::new(blank);
    let pruning = Pruning::new(alloc, cond, 0)?;
    let known = Binding::new(&[]);
    let kept = pruning.run(level, set, 0, &known, &mut steps);
    let before = out.len();
    for k in 0..len(set) {
        if kept.keeps(k) {
            out.push(b'0' + (k % 10) as u8)?;
        }
    }
    if out.len() == before {
        out.push(b'-')?;
    }
    Ok(())
}

/// The places of the partitions that the condition of these words keeps.
pub(crate) fn push_kept(
    alloc: Global,
    level: &Level,
    set: &BoundSet<CountedKey<'_>>,
    words: &str,
    out: &mut Vec<u8>,
) -> Result<(), NoMemory>
    requires { All (IsOfLevel level.now) set.now }
{
    let cond = condition(alloc, words)?;
    kept_by::<Brand>(alloc, level, set, &cond, Blank::new(1), out)
}
