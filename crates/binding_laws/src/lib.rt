//! What the binder gives fits the tables of its statement.
//!
//! Every column lies in its FROM item, the two sides of each comparison are of kinds that may be compared,
//! and what an output or a setting computes is of the kind that it is told to have. These are laws on
//! the definitions that `expression_binder` and `sql_binder` answer by; the functions only state them.
//!
//! What a statement asks for fits its tables, whenever the binder gives it.
//!
//! In a SELECT each output has the kind that it is told to have, in an INSERT each row has a value of its
//! column's kind, or null, for each column, in an UPDATE each new value may be assigned to its column; and in
//! every condition columns lie in their items and sides that are compared are of kinds that may be compared.
//! What rows are sorted by is there, and no column is set twice. A condition fits as well once NOT is pushed inwards and
//! arguments stand in the places of parameters.
//! These are laws on the definitions that the binders answer by; the functions only state them.
#![tactic(auto)]

mod ask_laws;
mod laws;

pub use ask_laws::{changes_fit, columns_come_once, inserts_fit, orders_fit, selects_fit};
pub use laws::{conditions_fit, operands_fit, rewritten_conditions_fit};
