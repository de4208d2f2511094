//! The children of a level that pruning steps keep with what is known.

ghost use Rattle.std.specs.Prelude.{◌≡◌, ◌<◌, ◌≤◌, All, length};
ghost use Rattle.bound_forms.specs.Levels.{IsOfLevel};
ghost use Rattle.plan_tree.specs.Asks.{keeps_alone, keeps_asked, keeps_each, step_keeps};
ghost use Rattle.plan_tree.specs.Kept.{AreKept, AreMet, keeps_plain};

use crate::PlainSet;
use crate::asks::Asks;
use bound_forms::{KeyColumns, Level};
use cond_logic::Binding;
use part_bounds::BoundSet;
use pg_values::{Steps, Strategy, ValueKey};
use prune_steps::{KeptSet, Pruning};
use std::alloc::Global;
use std::marker::Brand;
use std::sync::ledger::{Blank, Ledger};

// The children of a level that the steps keep with what is known: the arguments of the binding, and its rows of the items
// before one.
fn run_one<L: Ledger>(
    one: &Pruning,
    before: u32,
    known: &Binding<'_>,
    level: &Level,
    set: &BoundSet<ValueKey>,
    blank: Blank,
) -> KeptSet
    requires small { length set.now ≤ 1024 }
    requires level { All (IsOfLevel level.now) set.now }
    requires name { blank.name ≡ L.name }
    requires parts { blank.parts ≡ L.parts }
    requires some { 0 < blank.parts }
    ensures { AreKept result (step_keeps one.now known.now.args before known.now.rows level.now set.now) set.now }
{
    let mut steps = Steps::<L>::new(blank);
    one.run(level, set, before, known, &mut steps)
}

// Keeps of the children those that they keep so too.
fn meet_one(
    one: &Pruning,
    before: u32,
    known: &Binding<'_>,
    level: &Level,
    set: &BoundSet<ValueKey>,
    kept: &mut KeptSet,
)
    requires small { length set.now ≤ 1024 }
    requires level { All (IsOfLevel level.now) set.now }
    ensures { AreMet kept.new kept.old (step_keeps one.now known.now.args before known.now.rows level.now set.now) set.now }
{
    let own = run_one::<Brand>(one, before, known, level, set, Blank::new(1));
    kept.meet(&own);
}

// Keeps of the children those that they keep each time that they are asked.
fn meet_each(
    one: &Pruning,
    asks: Asks,
    known: &Binding<'_>,
    level: &Level,
    set: &BoundSet<ValueKey>,
    kept: &mut KeptSet,
)
    requires small { length set.now ≤ 1024 }
    requires level { All (IsOfLevel level.now) set.now }
    ensures { AreMet kept.new kept.old (keeps_each asks known.now one.now level.now set.now) set.now }
{
    let nothing = Binding::new(&[]);
    meet_one(one, 0, &nothing, level, set, kept);
    match asks {
        Asks::Alone => {}
        Asks::Started => meet_one(one, 0, known, level, set, kept),
        Asks::Beside(item) => meet_one(one, item, known, level, set, kept),
        Asks::StartedBeside(item) => {
            meet_one(one, 0, known, level, set, kept);
            meet_one(one, item, known, level, set, kept);
        }
    }
}

/// Those that all of the steps keep.
pub(crate) fn kept_of(
    steps: &[Pruning],
    asks: Asks,
    known: &Binding<'_>,
    level: &Level,
    set: &BoundSet<ValueKey>,
) -> KeptSet
    requires small { length set.now ≤ 1024 }
    requires level { All (IsOfLevel level.now) set.now }
    ensures { AreKept result (keeps_asked asks known.now steps.now level.now set.now) set.now }
{
    let mut kept = KeptSet::all();
    for one in steps {
        meet_each(one, asks, known, level, set, &mut kept);
    }
    kept
}

/// Those that all of the steps keep, where nothing is known.
pub(crate) fn kept_alone(steps: &[Pruning], level: &Level, set: &BoundSet<ValueKey>) -> KeptSet
    requires small { length set.now ≤ 1024 }
    requires level { All (IsOfLevel level.now) set.now }
    ensures { AreKept result (keeps_alone steps.now level.now set.now) set.now }
{
    let nothing = Binding::new(&[]);
    kept_of(steps, Asks::Alone, &nothing, level, set)
}

/// Whether a plain table is kept.
pub(crate) fn is_plain_kept(
    alloc: Global,
    steps: &[Pruning],
    asks: Asks,
    known: &Binding<'_>,
    plain: &PlainSet,
) -> bool
    ensures { result ≡ keeps_plain (keeps_asked asks known.now steps.now) }
{
    let level = Level {
        strategy: Strategy::Range,
        columns: KeyColumns::new(alloc),
    };
    kept_of(steps, asks, known, &level, &plain.set).keeps(0)
}
