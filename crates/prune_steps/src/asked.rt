//! The pruning steps of a condition are made once, and run over the bounds of each level, beside what is known by then.

ghost use Rattle.std.specs.Prelude.{◌≡◌, ◌<◌, ◌≤◌, ◌+◌, ◌*◌, ◌^◌, ℕ, All, IfOk, length, slice_index_or};
ghost use Rattle.bound_forms.specs.declared.partition_bound.Bound.TheVariants.{Default as ByDefault};
ghost use Rattle.bound_forms.specs.Levels.{IsOfLevel};
ghost use Rattle.cond_logic.specs.Rewriting.{pushed, with_args};
ghost use Rattle.cond_logic.specs.Trees.{cond_tree};
ghost use Rattle.part_bounds.specs.Stored.{stored};
ghost use Rattle.prune_steps.specs.Atoms.{asked};
ghost use Rattle.prune_steps.specs.Beside.{beside};
ghost use Rattle.prune_steps.specs.Bits.{AreBits};
ghost use Rattle.prune_steps.specs.Kept.{kept};
ghost use Rattle.prune_steps.specs.Prunings.{condition_of};
ghost use Rattle.prune_steps.specs.Searches.{whole_searches, comparison_count};

use crate::asking::Asking;
use crate::keeping::keep_whole;
use crate::{KeptSet, Pruning};
use bound_forms::Level;
use cond_logic::{Binding, Cond, bind_params, push_not};
use part_bounds::BoundSet;
use pg_values::{KeyKind, NoMemory, Steps, Value};
use std::alloc::Global;
use std::sync::ledger::Ledger;

impl Pruning {
    /// The pruning steps of a condition over the columns of the FROM item. Fails only for want of memory.
    pub fn new(alloc: Global, cond: &Cond, item: u32) -> Result<Pruning, NoMemory>
        ensures item { IfOk result (λ p. p.item ≡ item) }
        ensures condition { IfOk result (λ p. condition_of p ≡ pushed (cond_tree cond.now)) }
    {
        let cond = push_not(alloc, bind_params(alloc, cond, &[])?)?;
        Ok(Pruning { item, cond })
    }

    /// The children of a level that the condition keeps with what is known: the arguments of the binding, and its
    /// rows of the items before one. Exactly those of Kept, with at most 2 d comparisons for each comparison of a key
    /// column with a known value, all of them counted. Takes no memory.
    pub fn run<K: KeyKind, L: Ledger>(
        &self,
        level: &Level,
        set: &BoundSet<K>,
        before: u32,
        binding: &Binding<'_>,
        steps: &mut Steps<L>,
    ) -> KeptSet
        requires small { length set.now ≤ 1024 }
        requires level { All (IsOfLevel level.now) set.now }
        ensures kept { AreBits (length set.now) result (λ k. kept (asked self.now.item level.now) set.now binding.now.args (beside before binding.now.rows (condition_of self.now)) (slice_index_or set.now k ByDefault)) }
        ensures counted { (d : ℕ) → 2 ^ d ≤ length (stored set.now) + 1 → steps.old + d * whole_searches (asked self.now.item level.now) (pushed (with_args binding.now.args (beside before binding.now.rows (condition_of self.now)))) ≤ steps.new }
        ensures cost { (d : ℕ) → 2 * length (stored set.now) + 2 < 2 ^ (d + 1) → steps.new ≤ steps.old + 2 * d * comparison_count (asked self.now.item level.now) (pushed (with_args binding.now.args (beside before binding.now.rows (condition_of self.now)))) }
    {
        let null = Value::Null;
        let asking = Asking {
            item: self.item,
            level,
            before,
            binding,
            null: &null,
        };
        let mut kept = KeptSet::none();
        keep_whole(&asking, set, &self.cond, &mut kept, steps);
        kept
    }
}
