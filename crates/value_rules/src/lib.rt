//! What a statement does with values: it reads them from text, adds and divides them, and assigns
//! them to columns.
//!
//! - `read_value` gives the value of a kind that bytes spell, or the fault that they are refused
//!   with. What `write_value` writes of a value that is not null is read again as that value.
//! - `arith` is `+ - * / %` on integers, and the sums and differences of dates. It computes in
//!   twice the width and tests the range once, so no case is left out.
//! - `coerce` turns a value into one of a column's kind where assignment allows it, and hands it
//!   back where not.
#![tactic(auto)]

mod arithmetic;
mod assignment;
mod operators;
mod range;
mod reading;
mod round_trip;

pub use arithmetic::arith;
pub use assignment::{CoerceFault, coerce};
pub use operators::{Arith, ArithFault};
pub use reading::read_value;
pub use round_trip::reads_back;
