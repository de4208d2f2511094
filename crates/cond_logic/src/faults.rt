ghost use Rattle.std.specs.Prelude.{◌≡◌, IfOk};
ghost use Rattle.cond_logic.specs.Faults as faults;

use pg_values::{Fault, NoMemory, Value, kind_of};
use refusals::{date_out_of_range, division_by_zero, no_operator, out_of_range};
use std::alloc::Global;
use value_rules::{Arith, ArithFault};

fn sign(op: Arith) -> &'static [u8]
    ensures { result.now ≡ faults.sign op }
{
    match op {
        Arith::Add => b"+",
        Arith::Sub => b"-",
        Arith::Mul => b"*",
        Arith::Div => b"/",
        Arith::Rem => b"%",
    }
}

/// Why two values are not computed.
pub(crate) fn arith_fault(
    alloc: Global,
    a: &Value,
    op: Arith,
    b: &Value,
    fault: ArithFault,
) -> Result<Fault, NoMemory>
    ensures { IfOk result (λ f. f ≡ faults.arith_fault a.now op b.now fault) }
{
    match fault {
        ArithFault::OutOfRange => Ok(out_of_range(alloc)),
        ArithFault::DateRange => Ok(date_out_of_range(alloc)),
        ArithFault::ZeroDivisor => Ok(division_by_zero(alloc)),
        ArithFault::NoOperator => no_operator(alloc, kind_of(a), sign(op), kind_of(b)),
    }
}
