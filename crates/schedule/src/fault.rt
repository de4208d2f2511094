ghost use Rattle.std.specs.Prelude.{◌≡◌, IfOk};

use pg_values::{Args, Fault, NoMemory};
use std::alloc::Global;

fn copy_args(alloc: Global, args: &Args) -> Result<Args, NoMemory>
    ensures { IfOk result (λ copy. copy ≡ args.now) }
{
    let mut copy = Args::new(alloc);
    for text in args.as_slice() {
        copy.push(text.copy(alloc)?)?;
    }
    Ok(copy)
}

/// A copy of the fault.
pub fn copy_fault(alloc: Global, fault: &Fault) -> Result<Fault, NoMemory>
    ensures { IfOk result (λ copy. copy ≡ fault.now) }
{
    Ok(Fault {
        code: fault.code,
        args: copy_args(alloc, &fault.args)?,
    })
}
