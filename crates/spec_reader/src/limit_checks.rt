ghost use Rattle.spec_reader.specs.Faults as faults;
ghost use Rattle.spec_reader.specs.Finds.{Finds};
ghost use Rattle.spec_reader.specs.declared.fault.SpecFault.TheVariants.{Limit};

use crate::check::{Check, check_all};
use crate::fault::SpecFault;
use crate::in_order::InOrder;
use crate::limits::{
    MOST_MARKERS, MOST_PERMUTATIONS, MOST_SESSIONS, MOST_SETUP_BLOCKS, MOST_STEPS, MOST_USES,
};
use crate::spec::SessionSpec;
use crate::written::{WrittenSpec, WrittenUse};
use pg_values::{PgText, Which};
use std::alloc::Global;

fn past(is_past: bool, which: Which) -> Result<(), SpecFault>
    ensures { Finds result (faults.told is_past (Limit which)) }
{
    if is_past {
        return Err(SpecFault::Limit { which });
    }
    Ok(())
}

/// Sessions, and their steps together.
fn session_limits(sessions: &[SessionSpec]) -> Result<(), SpecFault>
    ensures { Finds result (faults.first_told faults.session_limit sessions.now) }
{
    let mut steps = 0;
    for i in 0..sessions.len() {
        let more = sessions[i].steps.len();
        past(MOST_SESSIONS <= i, Which::Sessions)?;
        past(MOST_STEPS - steps < more, Which::Steps)?;
        steps += more;
    }
    Ok(())
}

#[derive(Clone, Copy)]
struct UseLimit;

impl Check for UseLimit {
    ghost use Rattle.spec_reader.specs.Faults as faults;

    type Item = WrittenUse;

    ghost finds = { λ _ before one. faults.use_limit before one };

    fn check(
        &self,
        alloc: Global,
        before: &[WrittenUse],
        item: &WrittenUse,
    ) -> Result<(), SpecFault> {
        past(MOST_USES <= before.len(), Which::Uses)?;
        past(MOST_MARKERS < item.markers.len(), Which::Markers)
    }
}

#[derive(Clone, Copy)]
struct PermutationLimit;

impl Check for PermutationLimit {
    ghost use Rattle.spec_reader.specs.Faults as faults;

    type Item = InOrder<WrittenUse>;

    ghost finds = { λ _ before uses. faults.permutation_limit before uses };

    fn check(
        &self,
        alloc: Global,
        before: &[InOrder<WrittenUse>],
        item: &InOrder<WrittenUse>,
    ) -> Result<(), SpecFault> {
        past(MOST_PERMUTATIONS <= before.len(), Which::Permutations)?;
        check_all(alloc, &UseLimit, item.as_slice())
    }
}

/// All limits of a script.
pub fn limits(alloc: Global, spec: &WrittenSpec) -> Result<(), SpecFault>
    ensures { Finds result (faults.limit spec.now) }
{
    past(MOST_SETUP_BLOCKS < spec.setups.len(), Which::SetupBlocks)?;
    session_limits(spec.sessions.as_slice())?;
    check_all(alloc, &PermutationLimit, spec.permutations.as_slice())
}
