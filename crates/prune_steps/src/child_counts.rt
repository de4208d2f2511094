ghost use Rattle.std.specs.Prelude.{◌≡◌, ◌<◌, ◌+◌, ◌==◌, ℕ};
ghost use Rattle.prune_steps.specs.Lists.{count_at};
ghost use Rattle.prune_steps.specs.Tallies.{one};

use std::marker::Model;

/// A number for each child, seen as their list.
#[derive(Drop)]
pub(crate) struct Counts {
    counts: [usize; 1024],
}

impl Model for Counts {
    ghost use Rattle.std.specs.Prelude.{List, ℕ};

    ghost Value = { List ℕ };

    ghost view = { λ c. c.counts };
}

impl Counts {
    pub(crate) fn new() -> Counts
        ensures { (k : ℕ) → k < 1024 → count_at result k ≡ 0 }
    {
        Counts { counts: [0; 1024] }
    }

    pub(crate) fn of(&self, child: usize) -> usize
        requires { child < 1024 }
        ensures { result ≡ count_at self.now child }
    {
        self.counts[child]
    }

    pub(crate) fn count(&mut self, child: usize)
        requires child { child < 1024 }
        requires few { count_at self.old child < 18446744073709551615 }
        ensures { (k : ℕ) → k < 1024 → count_at self.new k ≡ one (k == child) + count_at self.old k }
    {
        self.counts[child] += 1;
    }
}
