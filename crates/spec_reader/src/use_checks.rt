ghost use Rattle.std.specs.Prelude.{◌≡◌, Some};
ghost use Rattle.spec_reader.specs.Faults as faults;
ghost use Rattle.spec_reader.specs.Finds.{Finds, Found};
ghost use Rattle.spec_reader.specs.declared.fault.SpecFault.TheVariants.{UnknownMarker};

use crate::check::{Check, check_all};
use crate::fault::SpecFault;
use crate::in_order::InOrder;
use crate::step_names::StepNames;
use crate::written::{WrittenMarker, WrittenUse};
use pg_values::PgText;
use std::alloc::Global;

/// Each use is of a step.
#[derive(Clone, Copy)]
struct KnownStep<'n, 'a> {
    names: &'n StepNames<'a>,
}

impl<'n, 'a> Check for KnownStep<'n, 'a> {
    ghost use Rattle.spec_reader.specs.Faults as faults;

    type Item = WrittenUse;

    ghost finds = { λ check before one. faults.unknown_step check.names.now before one };

    fn check(
        &self,
        alloc: Global,
        before: &[WrittenUse],
        item: &WrittenUse,
    ) -> Result<(), SpecFault> {
        if self.names.session_of(item.step.as_bytes()).is_some() {
            return Ok(());
        }
        Err(SpecFault::UnknownStep {
            name: item.step.copy(alloc)?,
        })
    }
}

#[derive(Clone, Copy)]
struct KnownSteps<'n, 'a> {
    names: &'n StepNames<'a>,
}

impl<'n, 'a> Check for KnownSteps<'n, 'a> {
    ghost use Rattle.spec_reader.specs.Faults as faults;

    type Item = InOrder<WrittenUse>;

    ghost finds = { λ check before uses. faults.unknown_steps check.names.now before uses };

    fn check(
        &self,
        alloc: Global,
        before: &[InOrder<WrittenUse>],
        item: &InOrder<WrittenUse>,
    ) -> Result<(), SpecFault> {
        check_all(alloc, &KnownStep { names: self.names }, item.as_slice())
    }
}

/// Whether a step is of another session than a step that is there.
fn is_other(own: Option<usize>, other: Option<usize>) -> bool
    ensures { result ≡ faults.is_other own other }
{
    match (own, other) {
        (_, None) => false,
        (None, Some(_)) => true,
        (Some(own), Some(other)) => own != other,
    }
}

fn unknown_marker(alloc: Global, name: &[u8]) -> SpecFault
    ensures { Found result (Some (UnknownMarker name.now)) }
{
    match PgText::from_bytes(alloc, name) {
        Ok(name) => SpecFault::UnknownMarker { name },
        Err(_) => SpecFault::NoMemory,
    }
}

/// Each marker of a use waits for another session's step.
#[derive(Clone, Copy)]
struct KnownMarker<'n, 'a> {
    names: &'n StepNames<'a>,
    step: &'n PgText,
}

impl<'n, 'a> Check for KnownMarker<'n, 'a> {
    ghost use Rattle.spec_reader.specs.Faults as faults;

    type Item = WrittenMarker;

    ghost finds = { λ check before marker. faults.unknown_marker check.names.now check.step.now before marker };

    fn check(
        &self,
        alloc: Global,
        before: &[WrittenMarker],
        item: &WrittenMarker,
    ) -> Result<(), SpecFault> {
        match item {
            WrittenMarker::Waiting => Ok(()),
            WrittenMarker::After(name) => {
                let own = self.names.session_of(self.step.as_bytes());
                if is_other(own, self.names.session_of(name.as_bytes())) {
                    return Ok(());
                }
                Err(unknown_marker(alloc, name.as_bytes()))
            }
            WrittenMarker::Notices => Err(unknown_marker(alloc, b"notices")),
        }
    }
}

#[derive(Clone, Copy)]
struct KnownMarkers<'n, 'a> {
    names: &'n StepNames<'a>,
}

impl<'n, 'a> Check for KnownMarkers<'n, 'a> {
    ghost use Rattle.spec_reader.specs.Faults as faults;

    type Item = WrittenUse;

    ghost finds = { λ check before one. faults.unknown_markers check.names.now before one };

    fn check(
        &self,
        alloc: Global,
        before: &[WrittenUse],
        item: &WrittenUse,
    ) -> Result<(), SpecFault> {
        let check = KnownMarker {
            names: self.names,
            step: &item.step,
        };
        check_all(alloc, &check, item.markers.as_slice())
    }
}

#[derive(Clone, Copy)]
struct KnownUses<'n, 'a> {
    names: &'n StepNames<'a>,
}

impl<'n, 'a> Check for KnownUses<'n, 'a> {
    ghost use Rattle.spec_reader.specs.Faults as faults;

    type Item = InOrder<WrittenUse>;

    ghost finds = { λ check before uses. faults.unknown_uses check.names.now before uses };

    fn check(
        &self,
        alloc: Global,
        before: &[InOrder<WrittenUse>],
        item: &InOrder<WrittenUse>,
    ) -> Result<(), SpecFault> {
        check_all(alloc, &KnownMarkers { names: self.names }, item.as_slice())
    }
}

fn some_permutation(permutations: &[InOrder<WrittenUse>]) -> Result<(), SpecFault>
    ensures { Finds result (faults.no_permutation permutations.now) }
{
    match permutations {
        [] => Err(SpecFault::NoPermutation),
        _ => Ok(()),
    }
}

fn known_steps(
    alloc: Global,
    names: &StepNames,
    permutations: &[InOrder<WrittenUse>],
) -> Result<(), SpecFault>
    ensures { Finds result (faults.first_told (faults.unknown_steps names.now) permutations.now) }
{
    check_all(alloc, &KnownSteps { names }, permutations)
}

fn known_uses(
    alloc: Global,
    names: &StepNames,
    permutations: &[InOrder<WrittenUse>],
) -> Result<(), SpecFault>
    ensures { Finds result (faults.first_told (faults.unknown_uses names.now) permutations.now) }
{
    check_all(alloc, &KnownUses { names }, permutations)
}

/// All permutations: first that there are some, then their steps, then the markers.
pub fn permutation_checks(
    alloc: Global,
    names: &StepNames,
    permutations: &[InOrder<WrittenUse>],
) -> Result<(), SpecFault>
    ensures { Finds result (faults.permutation_fault names.now permutations.now) }
{
    some_permutation(permutations)?;
    known_steps(alloc, names, permutations)?;
    known_uses(alloc, names, permutations)
}
