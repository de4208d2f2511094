ghost use Rattle.std.specs.Prelude.{◌≡◌, ◌<◌, ℕ, false, Some, All, length};
ghost use Rattle.schedule.specs.Tasks.{AreKnown};

use crate::database::Database;
use crate::run_end::RunEnd;
use crate::seat::Seat;
use crate::task::{Permutation, Task};

/// A world of the run, in memory.
#[derive(Drop)]
pub struct Engine<'e, 's, D: Database> {
    pub db: D,
    /// Those to come.
    pub permutations: &'e [Permutation<'s>],
    /// Those to come in this permutation.
    pub tasks: &'e [Task<'s>],
    /// By session.
    pub seats: Vec<Seat<'e>>,
    /// Whose report is held back, in the order of their ends.
    pub held: Vec<usize>,
    /// Whose launch was the last.
    pub last: usize,
    /// Who goes on.
    pub turn: Option<usize>,
    /// `All`, as long as no failure has ended the run.
    pub end: RunEnd,
    pub sessions: usize,
    ghost counted: { D.count db ≡ sessions },
    ghost seated: { length seats.items ≡ sessions },
    ghost known: { AreKnown sessions tasks.now },
    ghost known_later: { All (AreKnown sessions) permutations.now },
    ghost holding: { All (λ s. s < sessions) held.items },
    ghost acting: { (s : ℕ) → turn ≡ Some s → s < sessions },
    ghost free: { (s : ℕ) → turn ≡ Some s → D.waiting db s ≡ false },
}
