ghost use Rattle.spec_reader.specs.Faults.{first_told};
ghost use Rattle.spec_reader.specs.Finds.{Finds};

use crate::fault::SpecFault;
use std::alloc::Global;

/// A rule on each item of a list, which may depend on the items before it.
pub trait Check {
    ghost use Rattle.std.specs.Prelude.{List, Option};
    ghost use Rattle.spec_reader.specs.Finds.{Finds};
    ghost use Rattle.spec_reader.specs.declared.fault.SpecFault.{SpecFault as OneFault};

    type Item;

    /// What is told of an item behind others.
    ghost finds: { Self → List Self.Item → Self.Item → Option OneFault };

    fn check(
        &self,
        alloc: Global,
        before: &[Self::Item],
        item: &Self::Item,
    ) -> Result<(), SpecFault>
        ensures { Finds result (finds self.now before.now item.now) };
}

/// The rule on all items, up to the first that breaks it.
pub fn check_all<C: Check>(alloc: Global, check: &C, items: &[C::Item]) -> Result<(), SpecFault>
    ensures { Finds result (first_told (C.finds check.now) items.now) }
{
    for i in 0..items.len() {
        check.check(alloc, &items[..i], &items[i])?;
    }
    Ok(())
}
