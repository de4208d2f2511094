//! Conditions of WHERE and ON once their names are bound, and their truth for a tuple of rows.
//!
//! A condition has three values: a comparison with null is neither true nor false. `eval` says which
//! of the three a condition has for the rows and the arguments that a `Binding` lends; it never fails.
//!
//! Before plans are made of a condition it is rewritten: NOT is pushed inwards until it stands over IS
//! NULL alone (`push_not`), and the arguments that are known take the places of their parameters
//! (`bind_params`). Both keep the truth of every tuple (`pushing_keeps_truth`,
//! `binding_keeps_truth`). `columns_used` tells what has to be there before a condition can be asked, and
//! `conjuncts` the parts that all have to hold (`conjuncts_keep_truth`).
//!
//! Contracts speak of the tree of a condition (`cond_tree`), without where it lies in memory.
//! Functions call themselves once for each level of nesting, and never along a list.
//!
//! What the expressions of a select list and of SET are worth for a tuple of rows.
//!
//! A tuple lends a row for each FROM item (`cond_logic::Binding`) and the names of the tables in which
//! these rows lie (`RowTables`), since `tableoid::regclass` names the leaf of a row and not the table
//! that the statement names. `scalar_value` computes one expression, left before right; the first fault
//! refuses, as 22003, 22008 or 22012.
//!
//! `pg_cancel_backend` only answers here whether there is a session of that number: who runs the
//! statement makes the cancel.
//!
//! What a statement asks for once its names are bound: the rows of a SELECT, the rows of an INSERT, and
//! the changes of an UPDATE or a DELETE, by places and values.
//!
//! The binder makes these, and what plans and runs statements takes them. They know neither texts nor
//! trees of SQL. Contracts speak of them without where they lie in memory (`select_meant`,
//! `insert_meant`, `change_meant`).
#![tactic(auto)]

mod binding;
mod change;
mod columns;
mod computing;
mod cond;
mod evaluate;
mod faults;
mod insert;
mod laws;
mod named_leaf;
mod parameters;
mod pushing;
mod row_tables;
mod scalar;
mod select;
mod truth;

pub use binding::Binding;
pub use change::{ChangeAsk, Setting};
pub use columns::columns_used;
pub use computing::{column_value, scalar_value, table_number, table_value};
pub use cond::{ColumnId, CompareOp, Cond, CondList, Operand};
pub use evaluate::eval;
pub use insert::InsertAsk;
pub use laws::{
    binding_keeps_truth, binding_leaves_no_given_parameter, conjuncts_keep_truth,
    not_stands_over_null_tests, pushing_keeps_truth,
};
pub use named_leaf::NamedLeaf;
pub use parameters::bind_params;
pub use pushing::push_not;
pub use row_tables::RowTables;
pub use scalar::Scalar;
pub use select::{Output, SelectAsk, SortBy, SortKey};
pub use truth::Truth3;
