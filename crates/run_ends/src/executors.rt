ghost use Rattle.std.specs.Prelude.{◌≡◌, ◌<◌, ℕ, List, None, All, replicate, length, false};
ghost use Rattle.schedule.specs.Run.{World, start};
ghost use Rattle.schedule.specs.Tasks.{AreKnown};
ghost use Rattle.schedule.specs.declared.task.Task.{Task};
ghost use Rattle.sessions.specs.Sessions.{new_session, rules_of};
ghost use Rattle.run_ends.specs.Ending.{ComesToEnd};

use crate::runs::{Ranked, runs_come_to_an_end};
use std::marker::PhantomData;

/// Ranks of an executor's states that each call of n sessions lowers, and statements that commit in
/// their middle once at most: an empty type stands for them.
pub trait RankedCourse {
    ghost use Rattle.std.specs.Prelude.{ℕ, Option, List, Bool};
    ghost use Rattle.sessions.specs.Course.{Course};
    ghost use Rattle.run_ends.specs.Executors.{LowersIn, CommitOnceIn};

    ghost State: { Type 0 };

    ghost Tree: { Type 0 };

    ghost course: { Course State Tree };

    /// Whether the session's statement has committed what it did first.
    ghost has_committed: { State → ℕ → Tree → Bool };

    /// By n, the control session among them.
    ghost ranks: { ℕ → State → Option ℕ → List Bool → ℕ → Type 0 };

    /// Each call lowers them.
    fn lowers()
        ensures { (n : ℕ) → LowersIn course n (ranks n) };

    /// A statement commits in its middle once at most.
    fn commits_once()
        ensures { (n : ℕ) → CommitOnceIn course has_committed (ranks n) };
}

/// The sessions over such an executor.
pub struct Over<C: RankedCourse> {
    course: PhantomData<C>,
}

impl<C: RankedCourse> Ranked for Over<C> {
    ghost use Rattle.sessions.specs.Sessions.{State, rules_of};
    ghost use Rattle.schedule.specs.Run.{Anything};
    ghost use Rattle.run_ends.specs.SessionRank.{IsRanked};

    ghost State = { State C.State C.Tree };

    ghost rules = { rules_of C.course };

    ghost ranks = { λ n. IsRanked C.has_committed (C.ranks n) };

    ghost good = { Anything };

    fn lowers() {
        C::lowers();
        C::commits_once();
    }
}

/// From every state of the executor that has a rank, with sessions that have run nothing, and with
/// every list of permutations, the run comes to its end.
pub fn sessions_come_to_an_end<C: RankedCourse>()
    ensures { (v : C.State) (n k : ℕ) (ps : List (List Task)) → C.ranks n v None (replicate n false) k → All (AreKnown n) ps → ComesToEnd (rules_of C.course) (start (rules_of C.course) (record { executor = v; sessions = replicate n new_session }) n ps) }
{
    runs_come_to_an_end::<Over<C>>();
}
