ghost use Rattle.std.specs.Prelude.{◌≡◌, ◌<◌, ◌≤◌, ℕ, false, true, ◌&&◌, ◌||◌, ◌==◌, MatchOption};
ghost use Rattle.prune_steps.specs.Bits.{bit, in_run, AreBits, NoneIn, FirstFrom};

use std::marker::Model;

/// A set of at most 1,024 children, seen as the words of its bits. It takes no memory.
#[derive(Drop)]
pub struct KeptSet {
    words: [u128; 8],
}

impl Model for KeptSet {
    ghost use Rattle.std.specs.Prelude.{List, ℕ};

    ghost Value = { List ℕ };

    ghost view = { λ s. s.words };
}

impl KeptSet {
    /// No children.
    pub(crate) fn none() -> KeptSet
        ensures { AreBits 1024 result (λ k. false) }
    {
        KeptSet { words: [0; 8] }
    }

    /// All of them.
    pub fn all() -> KeptSet
        ensures { AreBits 1024 result (λ k. true) }
    {
        KeptSet {
            words: [u128::MAX; 8],
        }
    }

    /// Whether the child is in the set.
    pub fn keeps(&self, child: usize) -> bool
        requires { child < 1024 }
        ensures { result ≡ bit self.now child }
    {
        (self.words[child / 128] >> (child % 128)) & 1 == 1
    }

    /// The first child of the set from this number on.
    pub fn first_from(&self, from: usize) -> Option<usize>
        ensures { MatchOption result (NoneIn self.now from 1024) (FirstFrom self.now from) }
    {
        let mut at = from;
        while at < 1024 {
            let left = self.words[at / 128] >> (at % 128);
            if left != 0 {
                return Some(at + left.trailing_zeros() as usize);
            }
            at = (at / 128 + 1) * 128;
        }
        None
    }

    /// Makes it the set of all of the first children.
    pub(crate) fn fill(&mut self, all: bool)
        ensures { AreBits 1024 self.new (λ k. all) }
    {
        let word = if all { u128::MAX } else { 0 };
        for i in 0..8 {
            self.words[i] = word;
        }
    }

    /// Makes it the set of the children of a run.
    pub(crate) fn set_run(&mut self, from: usize, to: usize)
        requires { to ≤ 1024 }
        ensures { AreBits 1024 self.new (in_run from to) }
    {
        self.fill(false);
        for child in from..to {
            self.add_if(child, true);
        }
    }

    /// Adds the child, or not.
    pub(crate) fn add_if(&mut self, child: usize, yes: bool)
        requires { child < 1024 }
        ensures { AreBits 1024 self.new (λ k. bit self.old k || ((k == child) && yes)) }
    {
        if yes {
            self.words[child / 128] |= 1 << (child % 128);
        }
    }

    /// Keeps the children that the other set has too.
    pub fn meet(&mut self, other: &KeptSet)
        ensures { AreBits 1024 self.new (λ k. bit self.old k && bit other.now k) }
    {
        for i in 0..8 {
            self.words[i] &= other.words[i];
        }
    }

    /// Adds the children of the other set.
    pub(crate) fn join(&mut self, other: &KeptSet)
        ensures { AreBits 1024 self.new (λ k. bit self.old k || bit other.now k) }
    {
        for i in 0..8 {
            self.words[i] |= other.words[i];
        }
    }
}
