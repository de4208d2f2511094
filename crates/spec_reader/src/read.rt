ghost use Rattle.std.specs.Prelude.{◌≡◌, ◌≤◌, ◌∷◌, [], ◌++◌, if◌then◌else◌, length, map, IfOk, OnOk};
ghost use Rattle.spec_reader.specs.Faults as faults;
ghost use Rattle.spec_reader.specs.Finds.{Finds};
ghost use Rattle.spec_reader.specs.Specs as specs;

use crate::fault::SpecFault;
use crate::in_order::InOrder;
use crate::limit_checks::limits;
use crate::names::step_names;
use crate::productions::Script;
use crate::reader::read_tokens;
use crate::spec::{Marker, PermutationList, Spec, StepUse};
use crate::token::Token;
use crate::use_checks::permutation_checks;
use crate::written::{WrittenMarker, WrittenSpec, WrittenUse};
use grammar::{Refused, token_at, whole};
use pg_values::NoMemory;
use std::alloc::Global;

fn one_if(counted: bool) -> usize
    ensures counted { result ≡ (if counted then 1 else 0) }
    ensures within { result ≤ 1 }
{
    if counted { 1 } else { 0 }
}

/// How many newlines a text has.
fn newlines(text: &[u8]) -> usize
    ensures counted { result ≡ specs.newlines text.now }
    ensures within { result ≤ length text.now }
{
    let mut n = 0_usize;
    for b in text {
        n += one_if(*b == b'\n');
    }
    n
}

/// The line of a place.
fn line_at(text: &[u8], at: usize) -> usize
    ensures { result ≡ specs.line_at text.now at }
{
    newlines(&text[..at.min(text.len())]) + 1
}

fn line_of(text: &[u8], token: Option<Token>) -> usize
    ensures { result ≡ specs.line_of text.now token }
{
    match token {
        None => line_at(text, text.len()),
        Some(token) => line_at(text, token.start),
    }
}

fn misfit(text: &[u8], tokens: &[Token], refused: Refused) -> SpecFault
    ensures { result ≡ specs.misfit text.now tokens.now refused }
{
    match refused {
        Refused::NoMemory => SpecFault::NoMemory,
        Refused::Syntax(left) => SpecFault::BadToken {
            line: line_of(text, token_at(tokens, left)),
        },
        Refused::Limit(left) => SpecFault::BadToken {
            line: line_of(text, token_at(tokens, left)),
        },
    }
}

fn judge(alloc: Global, spec: &WrittenSpec) -> Result<(), SpecFault>
    ensures { Finds result (faults.fault spec.now) }
{
    limits(alloc, spec)?;
    let names = step_names(alloc, spec.sessions.as_slice())?;
    permutation_checks(alloc, &names, spec.permutations.as_slice())
}

fn markers_of(alloc: Global, written: Vec<WrittenMarker>) -> Result<Vec<Marker>, NoMemory>
    ensures { IfOk result (λ v. v.items ≡ specs.markers_of written.items) }
{
    let mut markers = Vec::new(alloc);
    for marker in written {
        push_marker(&mut markers, marker)?;
    }
    Ok(markers)
}

fn push_marker(markers: &mut Vec<Marker>, marker: WrittenMarker) -> Result<(), NoMemory>
    ensures { OnOk result (markers.new.items ≡ markers.old.items ++ specs.markers_of (marker ∷ [])) }
{
    match marker {
        WrittenMarker::Waiting => markers.push(Marker::Waiting)?,
        WrittenMarker::After(step) => markers.push(Marker::After(step))?,
        WrittenMarker::Notices => {}
    }
    Ok(())
}

fn use_of(alloc: Global, written: WrittenUse) -> Result<StepUse, NoMemory>
    ensures { IfOk result (λ u. u ≡ specs.use_of written) }
{
    let markers = markers_of(alloc, written.markers.into_vec())?;
    Ok(StepUse {
        step: written.step,
        markers: InOrder::from_vec(markers),
    })
}

fn uses_of(alloc: Global, written: Vec<WrittenUse>) -> Result<Vec<StepUse>, NoMemory>
    ensures { IfOk result (λ v. v.items ≡ specs.uses_of written.items) }
{
    let mut uses = Vec::new(alloc);
    for one in written {
        uses.push(use_of(alloc, one)?)?;
    }
    Ok(uses)
}

fn permutations_of(
    alloc: Global,
    written: Vec<InOrder<WrittenUse>>,
) -> Result<PermutationList, NoMemory>
    ensures { IfOk result (λ v. v ≡ map specs.uses_of written.items) }
{
    let mut permutations = Vec::new(alloc);
    for uses in written {
        permutations.push(InOrder::from_vec(uses_of(alloc, uses.into_vec())?))?;
    }
    Ok(InOrder::from_vec(permutations))
}

/// The script, where it breaks no rule.
fn checked(alloc: Global, written: WrittenSpec) -> Result<Spec, SpecFault>
    ensures found { Finds result (faults.fault written) }
    ensures same { IfOk result (λ spec. spec ≡ specs.spec_of written) }
{
    judge(alloc, &written)?;
    Ok(Spec {
        setups: written.setups,
        teardown: written.teardown,
        sessions: written.sessions,
        permutations: permutations_of(alloc, written.permutations.into_vec())?,
    })
}

/// Reads a script.
pub fn read_spec(alloc: Global, text: &[u8]) -> Result<Spec, SpecFault>
    ensures { specs.ReadsSpec text.now result }
{
    let tokens = read_tokens(alloc, text)?;
    match whole::<Script>(alloc, text, &tokens) {
        Ok(written) => checked(alloc, written),
        Err(refused) => Err(misfit(text, &tokens, refused)),
    }
}
