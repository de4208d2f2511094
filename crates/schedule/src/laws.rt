ghost use Rattle.std.specs.Prelude.{◌≡◌, ◌<◌, ◌++◌, ℕ, List, None, Some, [], All};
ghost use Rattle.schedule.specs.Comes.{Comes};
ghost use Rattle.schedule.specs.Run.{World, Runs, Reaches, Throughout, start, next};
ghost use Rattle.schedule.specs.Tasks.{AreKnown};
ghost use Rattle.schedule.specs.declared.event.Event.{Event};
ghost use Rattle.schedule.specs.declared.run_end.RunEnd.TheVariants as ends;
ghost use Rattle.schedule.specs.declared.task.Task.{Task};

use crate::database::Database;

/// A run has one end, and one list of lines.
pub fn runs_have_one_end<D: Database>()
    ensures { (w : World D.State) (a b : List ℕ) (x y : World D.State) → Runs D.rules w a x → Runs D.rules w b y → (a ≡ b) × (x ≡ y) }
{}

/// Where each world on the way of a run is good, so is each that the run reaches.
pub fn reached_worlds_are_good<D: Database>()
    ensures { (w : World D.State) (a : List ℕ) (x : World D.State) (runs : Runs D.rules w a x) → Throughout D.good runs.reaches → (b : List ℕ) (y : World D.State) → Reaches D.rules w b y → D.good y.db }
{}

/// What has come so far is the beginning of the whole.
pub fn parts_are_beginnings<D: Database>()
    ensures { (w : World D.State) (a b : List ℕ) (x y : World D.State) → Reaches D.rules w a x → Runs D.rules w b y → (rest : List ℕ) × (a ++ rest ≡ b) }
{}

/// Each event comes where its rule says, and nowhere else.
pub fn events_come_in_order<D: Database>()
    ensures where_it_comes { (w : World D.State) (e : Event) → next D.rules w ≡ Some e → Comes D.rules w e }
    ensures there_it_comes { (w : World D.State) (e : Event) → Comes D.rules w e → next D.rules w ≡ Some e }
{}

/// Where no failure has ended a run, no task and no permutation is left.
pub fn all_is_done_at_the_end<D: Database>()
    ensures { (w : World D.State) (a : List ℕ) (x : World D.State) → Runs D.rules w a x → x.end ≡ ends.All → (x.tasks ≡ []) × (x.permutations ≡ []) }
{}

/// A property of a database's states, and of who has the turn, that each call keeps as the run
/// makes it: an empty type stands for the property.
pub trait Invariant {
    ghost use Rattle.std.specs.Prelude.{ℕ, Option};
    ghost use Rattle.schedule.specs.Rules.{Rules};
    ghost use Rattle.schedule.specs.Keeps.{Keeps};

    ghost State: { Type 0 };

    ghost rules: { Rules State };

    ghost holds: { State → Option ℕ → Type 0 };

    /// Each call keeps it.
    fn keeps()
        ensures { (n : ℕ) → Keeps rules n holds };
}

/// What holds at the beginning, and is kept by each call, holds in every world that the run reaches.
pub fn invariant_holds<I: Invariant>()
    ensures { (v : I.State) (n : ℕ) (ps : List (List Task)) (a : List ℕ) (x : World I.State) → I.holds v None → All (AreKnown n) ps → Reaches I.rules (start I.rules v n ps) a x → I.holds x.db x.turn }
{
    I::keeps();
}
