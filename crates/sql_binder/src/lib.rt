//! What a SELECT, a statement that changes rows and the arguments of a prepared one mean, or the first reason
//! why they mean nothing.
//!
//! The tables are known before: `bind_select` is given the FROM items with their columns, `bind_insert`,
//! `bind_update` and `bind_delete` the columns of their table, and all of them the parameters with their
//! arguments. They answer what the statement asks for by places and values, or its first fault: of a SELECT
//! too many FROM items and a name that two of them have, then names and kinds in text order, then constants in
//! text order. `bind_arguments` answers the parameters themselves in the same way.
//!
//! A condition names a parameter by its place, so that a plan can be made without its value. For a custom plan
//! the values are put there (`put_values`, `put_change_values`).
//!
//! Each answer is a list of faults and a meaning that is total: the first fault, else the meaning. The
//! lists are put together of those of expressions (`expression_binder`).
#![tactic(auto)]

mod arguments;
mod changes;
mod counts;
mod from;
mod heading;
mod inserts;
mod items;
mod key_names;
mod keys;
mod plain;
mod same;
mod selects;
mod values;

pub use arguments::{Wanted, bind_arguments};
pub use changes::{bind_delete, bind_update};
pub use inserts::bind_insert;
pub use selects::bind_select;
pub use values::{put_change_values, put_values, values_of};
