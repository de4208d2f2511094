//! What the expressions of a statement mean, or the first reason why they mean nothing.
//!
//! Names are looked up in a scope: the FROM items that may be named at a place, and the parameters of a
//! prepared statement. Each operand gets a kind. A string literal has none of its own and takes that of
//! its place, as null does. Constant expressions are computed once.
//!
//! An expression is judged twice, each time in text order and from its parts outwards: first its names
//! and kinds (`check_operand`, `check_condition`), then the values of its constants (`bind_scalar`,
//! `bind_condition`), because every fault of a name or a kind in a statement comes before any fault of a
//! constant. The definitions are two lists of faults and a meaning that is total; the answer is the first
//! fault of the list, else the meaning.
#![tactic(auto)]

mod conditions;
mod constants;
mod kinds;
mod meanings;
mod naming;
mod operands;
mod scalars;
mod scope;
mod signs;
mod typed;

pub use conditions::check_condition;
pub use constants::as_literal;
pub use kinds::{
    check_assigned, check_count, check_counting, check_joined, given_made, is_arithmetic,
    kind_alone, kind_made,
};
pub use meanings::bind_condition;
pub use naming::{Hit, Lookup, item_called, look_up, look_up_in};
pub use operands::{check_item, check_look_up, check_operand, check_own, typed_of, zero_typed};
pub use scalars::{bind_constant, bind_scalar, store};
pub use scope::{Allowed, Names, Param, ScopeColumn, ScopeItem, condition_names, nothing_more};
pub use typed::{Given, Typed};
