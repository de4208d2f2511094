//! What partscript prints: tables of rows, in the manner of psql and isolationtester, and errors.
//!
//! A table is a line of names, a rule of dashes, a line for each row, the count of the rows and an
//! empty line. Every column is as wide as its widest text, so a table is printed in two passes:
//! `column` finds the columns with their widths, and `line` then writes one line after another.
//! The printed form is the definition `printed_table`; each writer below appends its part of it.
#![tactic(auto)]

mod column;
mod fault_text;
mod line;
mod table;
mod width;

pub use column::Column;
pub use fault_text::write_fault_text;
pub use table::write_table;
