//! Values that are none, and settings (class 22).

ghost use Rattle.std.specs.Prelude.{◌≡◌, IfOk};
ghost use Rattle.refusals.specs.Refusals as refusals;

use crate::kinds::kind_word;
use crate::told::{alone, of_one, of_two};
use pg_values::{Fault, Kind, NoMemory};
use std::alloc::Global;

/// `number out of range`
pub fn out_of_range(alloc: Global) -> Fault
    ensures { result ≡ refusals.out_of_range }
{
    alone(alloc, *b"22003")
}

/// `<text> is no date`
pub fn no_date(alloc: Global, text: &[u8]) -> Result<Fault, NoMemory>
    ensures { IfOk result (λ f. f ≡ refusals.no_date text.now) }
{
    of_one(alloc, *b"22007", text)
}

/// `date out of range`
pub fn date_out_of_range(alloc: Global) -> Fault
    ensures { result ≡ refusals.date_out_of_range }
{
    alone(alloc, *b"22008")
}

/// `division by zero`
pub fn division_by_zero(alloc: Global) -> Fault
    ensures { result ≡ refusals.division_by_zero }
{
    alone(alloc, *b"22012")
}

/// `negative LIMIT`
pub fn negative_limit(alloc: Global) -> Fault
    ensures { result ≡ refusals.negative_limit }
{
    alone(alloc, *b"2201W")
}

/// `negative OFFSET`
pub fn negative_offset(alloc: Global) -> Fault
    ensures { result ≡ refusals.negative_offset }
{
    alone(alloc, *b"2201X")
}

/// `no value <v> for <setting>`
pub fn no_value(alloc: Global, value: &[u8], setting: &[u8]) -> Result<Fault, NoMemory>
    ensures { IfOk result (λ f. f ≡ refusals.no_value value.now setting.now) }
{
    of_two(alloc, *b"22023", value, setting)
}

/// `<text> is no <kind>`
pub fn no_such_value(alloc: Global, text: &[u8], kind: Kind) -> Result<Fault, NoMemory>
    ensures { IfOk result (λ f. f ≡ refusals.no_such_value text.now kind) }
{
    of_two(alloc, *b"22P02", text, kind_word(kind))
}
