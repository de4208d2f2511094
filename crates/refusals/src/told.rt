//! Faults by the texts that they tell.

ghost use Rattle.std.specs.Prelude.{◌≡◌, ◌∷◌, [], IfOk};
ghost use Rattle.std.specs.Fmt.{decimal};
ghost use Rattle.refusals.specs.Refusals.{fault_of};

use pg_values::{Args, Fault, NoMemory, PgText, SqlState};
use std::alloc::Global;

pub(crate) fn alone(alloc: Global, state: [u8; 5]) -> Fault
    ensures { result ≡ fault_of state [] }
{
    Fault {
        code: SqlState { bytes: state },
        args: Args::new(alloc),
    }
}

pub(crate) fn of_one(alloc: Global, state: [u8; 5], a: &[u8]) -> Result<Fault, NoMemory>
    ensures { IfOk result (λ f. f ≡ fault_of state (a.now ∷ [])) }
{
    let mut fault = alone(alloc, state);
    fault.args.push(PgText::from_bytes(alloc, a)?)?;
    Ok(fault)
}

pub(crate) fn of_two(alloc: Global, state: [u8; 5], a: &[u8], b: &[u8]) -> Result<Fault, NoMemory>
    ensures { IfOk result (λ f. f ≡ fault_of state (a.now ∷ b.now ∷ [])) }
{
    let mut fault = of_one(alloc, state, a)?;
    fault.args.push(PgText::from_bytes(alloc, b)?)?;
    Ok(fault)
}

pub(crate) fn of_three(
    alloc: Global,
    state: [u8; 5],
    a: &[u8],
    b: &[u8],
    c: &[u8],
) -> Result<Fault, NoMemory>
    ensures { IfOk result (λ f. f ≡ fault_of state (a.now ∷ b.now ∷ c.now ∷ [])) }
{
    let mut fault = of_two(alloc, state, a, b)?;
    fault.args.push(PgText::from_bytes(alloc, c)?)?;
    Ok(fault)
}

pub(crate) fn of_four(
    alloc: Global,
    state: [u8; 5],
    a: &[u8],
    b: &[u8],
    c: &[u8],
    d: &[u8],
) -> Result<Fault, NoMemory>
    ensures { IfOk result (λ f. f ≡ fault_of state (a.now ∷ b.now ∷ c.now ∷ d.now ∷ [])) }
{
    let mut fault = of_three(alloc, state, a, b, c)?;
    fault.args.push(PgText::from_bytes(alloc, d)?)?;
    Ok(fault)
}

pub(crate) fn digits(alloc: Global, number: u64) -> Result<PgText, NoMemory>
    ensures { IfOk result (λ text. text ≡ decimal number) }
{
    let text = format!(in alloc; "{number}")?;
    PgText::from_bytes(alloc, text.as_bytes())
}
