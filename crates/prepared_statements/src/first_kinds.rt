ghost use Rattle.std.specs.Prelude.{◌≡◌, [], ◌∷◌, IfOk};
ghost use Rattle.prepared_statements.specs.Firsts.{noted, none_known};

use crate::parameter_places::either;
use pg_values::{Kind, NoMemory};
use std::alloc::Global;
use std::marker::Model;

/// For each parameter the kind that the first of its places so far gives it.
#[derive(Drop)]
pub(crate) struct FirstKinds {
    kinds: Vec<Option<Kind>>,
}

impl Model for FirstKinds {
    ghost use Rattle.std.specs.Prelude.{List, Option};
    ghost use Rattle.pg_values.specs.declared.value.Kind.{Kind as OneKind};

    ghost Value = { List (Option OneKind) };

    ghost view = { λ f. f.kinds.items };
}

impl FirstKinds {
    /// No place so far, of so many parameters.
    pub(crate) fn new(alloc: Global, count: usize) -> Result<Self, NoMemory>
        ensures { IfOk result (λ f. f ≡ none_known count) }
    {
        Ok(FirstKinds {
            kinds: vec![in alloc; None; count]?,
        })
    }

    /// A place of a parameter gives it a kind.
    pub(crate) fn note(&mut self, n: u64, kind: Kind)
        ensures { self.new ≡ noted self.old ((n, kind) ∷ []) }
    {
        if n == 0 {
            return;
        }
        let place = (n - 1) as usize;
        if place < self.kinds.len() {
            self.kinds[place] = either(self.kinds[place], Some(kind));
        }
    }

    /// The kinds, the first parameter's first.
    pub(crate) fn kinds(self) -> Vec<Option<Kind>>
        ensures { result.items ≡ self }
    {
        self.kinds
    }
}
