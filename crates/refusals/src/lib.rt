//! Why statements are refused: each SQLSTATE with its texts, and a maker for each.
//!
//! `specs/Refusals.antt` is the table, in the order of the manual's "Appendix A. PostgreSQL Error
//! Codes": for each refusal its state, its text and what the text tells of. A `Fault` holds the
//! state and the words that fill the holes of its text. Where a state has several texts, the text
//! itself stands first, with its holes: 42P16 `the bound has <n> values for <m>`, `1`, `2` is
//! printed as `the bound has 1 values for 2`. Kinds are told by their names in SQL, rows and keys
//! as their values in parentheses.
//!
//! Each maker says of its result that it is that line of the table; only want of memory is free. A
//! maker that tells no word takes no memory and cannot fail.
#![tactic(auto)]

mod bounds;
mod kinds;
mod limits;
mod names;
mod row_texts;
mod rows;
mod tables;
mod told;
mod transactions;
mod values;

pub use bounds::{
    bad_remainder, bound_does_not_suit, bound_overlaps, empty_range, modulus_does_not_suit,
    no_hash_default, not_repeated, null_in_range, second_default, takes_one_column, twice_in_key,
    wrong_bound_count,
};
pub use kinds::kind_word;
pub use limits::{left_out, too_many};
pub use names::{
    ambiguous, column_twice, name_twice, no_column, no_function, no_operator, no_output,
    no_parameter, no_prepared_statement, no_setting, no_type, prepared_statement_is_there,
    set_twice, syntax_error, wrong_count, wrong_kind,
};
pub use rows::{
    default_has_row, does_not_accept, kept_check, no_partition, null_column, outside_new_bounds,
};
pub use tables::{
    already_a_partition, column_does_not_match, has_default_partition, is_above, no_table,
    not_a_partition, not_partitioned, not_the_pending_partition, partition_is_pending,
    table_is_there,
};
pub use transactions::{
    deadlock, detach_inside_a_transaction, isolation_level_after_a_snapshot,
    lock_outside_a_transaction, row_was_changed, row_was_moved, statement_cancelled,
    the_transaction_has_failed,
};
pub use values::{
    date_out_of_range, division_by_zero, negative_limit, negative_offset, no_date, no_such_value,
    no_value, out_of_range,
};
