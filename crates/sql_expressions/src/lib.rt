//! Reads expressions of SQL.
//!
//! An expression is an operand and what stands behind it, from the operators that bind the tightest (a product) to the
//! loosest (OR), each seen by one token of look-ahead (PostgreSQL's "4.1.6 Operator Precedence"). `specs/Levels.antt` has a
//! line for each production. What stands deeper (behind a sign, in parentheses, in a call) is read in the same way with one
//! less of the depth that is left, so the depth of the calls here is bounded by the limit on the depth of an expression,
//! however long the text is. An operand is read at once, and not through a call for each level that it may belong to, and
//! into a place that the caller has, so that a level of depth takes little of the stack. Chains of ANDs and ORs, IN lists
//! and arguments are flat lists and are read by loops.
//!
//! Three answers are told apart, each at the first token that does not fit: no expression goes on
//! with it, or what it begins is left out by name, or one goes on with it that only a limit bars.
//!
//! Reads what all statements of SQL are made of: one word of two, names, whole numbers, and lists of
//! names.
//!
//! Each function answers as the reader of its rule in `specs/Lists.antt` does.
#![tactic(auto)]

mod deep;
mod laws;
mod levels;
mod list_words;
mod name_list;
mod parse;
mod refused;
mod signs;
mod words;

pub use laws::{no_two_trees, the_limits};
pub use levels::expression;
pub use list_words::{
    maybe_one_of, name_but, number, one_of, one_of_comes, other_name, other_name_comes, plain_name,
};
pub use name_list::{names, with_more_names};
pub use parse::{ExprPart, parse_expression, refusal};
pub use refused::ParseRefused;
pub use words::{MOST_NAME_BYTES, name, string};
