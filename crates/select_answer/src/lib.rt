//! The answer of a SELECT by its plan, which joins the items of FROM from the left.
//!
//! The leaves of the first item are read in order. Each of its rows that passes what is asked there goes on:
//! the leaves of the next item that are kept beside it are read, and so on to the last. An item that a Hash Join joins is read
//! before all that, once, the last such item first: its rows stand in a table (`HashTable`), where each tuple finds those whose
//! values are equal to its own. A partitionwise join of the first two items does so pair by pair: no leaf of a pair is read before
//! the tuples of the pair before it have gone on. The rows that the snapshot sees are lent until they are projected: a tuple of all items that passes gives a row to the
//! answer, with the values that it is sorted by (`KeyedRow`). Then the rows are sorted, stably, and cut by
//! OFFSET and LIMIT. What this gives is the definition of an answer (`specs/Answer.antt`).
//!
//! In each history of the stores the answer over the leaves that are read is that of nested loops over all
//! leaves of the tables, in plain order (`reads_are_plain`), and a SELECT gives that answer, or its first
//! fault, or is refused because it makes too many scans (`pruned_is_plain`).
//!
//! A statement makes so many scans at most, and an answer has so many tuples and so many bytes of
//! values before the cut: what is passed first stops it, as does the first fault of a select list
//! (`specs/Course.antt`). The trail has the leaves that were read until then.
//!
//! What happens on the way is counted for EXPLAIN ANALYZE, where somebody asks for it (`specs/Happenings.antt`).
#![tactic(auto)]

mod answering;
mod execution;
mod gathered;
mod hash_table;
mod keyed_row;
mod keys;
mod laws;
mod opening;
mod pairs;
mod reading;
mod row;
mod row_keys;

pub use answering::run_select;
pub use keyed_row::KeyedRow;
pub use laws::{
    happenings_are_of_marks, marks_are_of_joins, one_item_is_read_once, pruned_is_plain,
    reads_are_plain, rows_are_of_all_tuples,
};
pub use row_keys::RowKeys;

/// How many tuples an answer has at most, before it is cut.
pub const TUPLE_LIMIT: usize = 1_000_000;

/// How many bytes their values have at most: a value counts 16 bytes, and a text its length besides.
pub const TUPLE_BYTES_LIMIT: u64 = 268_435_456;
