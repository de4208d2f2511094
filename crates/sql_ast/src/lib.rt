//! The trees of SQL: what its readers make, and what binders and statements are given.
//!
//! PostgreSQL's parser makes a raw parse tree of a statement, and looks nothing up; what the names in it
//! mean is found afterwards ("The Parser Stage" of its internals). These are such raw trees. Names are
//! folded to lower case where they stand without quotes, strings are without theirs, and of parentheses
//! and comments nothing is left.
//!
//! - An `Expr` is an expression. What stands under an operator is a node of its own, but a chain of ANDs
//!   or of ORs is one node, however long.
//! - A `Command` is a statement that reads and changes no rows: a transaction's begin and end, a setting,
//!   a table and its partitions, a lock. A `Query` reads or changes rows, or prepares, executes or
//!   explains a statement that does. A `Statement` is one or the other.
//!
//! To contracts a tree is plain data, without where it lies in memory: `specs` has it beside the function
//! that tells it of the code's (`tree` in `Expressions.antt`, `command_tree` in `Commands.antt`,
//! `query_tree` in `Queries.antt`, `statement_tree` in `Statements.antt`). So the grammars, which say what
//! texts a tree has, and the binders, which say what it means, need not know of each other.
#![tactic(auto)]

mod bound;
mod changes;
mod command;
mod detachment;
mod expr;
mod leaf;
mod locked_table;
mod named_table;
mod query;
mod select;
mod setting_value;
mod statement;
mod table_definition;

pub use bound::{BoundText, EdgeList, EdgeText};
pub use changes::{Assignment, Delete, Insert, Update};
pub use command::Command;
pub use detachment::Detachment;
pub use expr::{Expr, ExprList};
pub use leaf::{Leaf, Operator};
pub use locked_table::{LockedTable, LockedTableList};
pub use named_table::{NameList, NamedTable};
pub use query::{Query, RowStatement};
pub use select::{FromItem, Select, SelectItem, SortKey};
pub use setting_value::SettingValue;
pub use statement::Statement;
pub use table_definition::{ColumnDefinition, ColumnList, Partitioning};
