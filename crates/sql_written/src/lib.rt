//! Writes expressions of SQL back as text.
//!
//! The text is what a careful person would write: words in capitals, one blank between them, names
//! in quotes only where they must be, and only the parentheses that are needed. An operand stands in
//! parentheses where its own level is looser than the level that its place needs
//! (`specs/Precedence.antt`): `(a + b) * c`, but `a + b * c`.
//!
//! `specs/Written.antt` says what is written of each tree as a list of marks: words, signs and
//! constants, with their kinds, and the blanks between them. Each mark stands apart from what comes
//! behind it, so the tokens of the text are the marks. `specs/Writable.antt` says which trees can be
//! written.
//!
//! `parses_can_be_written` says that these are all that a parse gives, `reads_back` that the text of
//! such a tree is read as that tree and no other, `no_fewer_parentheses` that no text of the tree opens
//! fewer, and `quotes_are_needed` that a name in quotes is said by no token without.
//!
//! Writes statements of SQL back as text: what a careful person would write.
//!
//! `specs/Commands.antt` and `specs/Queries.antt` say what is written of each statement, as a list of
//! marks: words in capitals, names, constants, signs, and the blanks between them. What is said by
//! leaving it out is left out. `specs/Words.antt` has the words, and names that stand in quotes because
//! the word would be read as another thing. `specs/Writable.antt` says which statements can be written.
//!
//! `blocks_can_be_written` says that these are all that a parse gives, `statements_read_back` that what is
//! written of one is a block of that statement alone, `no_fewer_parentheses` that no block of it alone opens
//! fewer, and `quotes_are_needed` that a name in quotes needs them.
#![tactic(auto)]

mod block_laws;
mod chain;
mod commands;
mod laws;
mod parts;
mod precedence;
mod queries;
mod query_parts;
mod spelling;
mod statements;
mod words;
mod write;

pub use block_laws::{
    blocks_can_be_written, blocks_have_no_fewer_parentheses, quotes_in_blocks_are_needed,
    statements_read_back,
};
pub use laws::{no_fewer_parentheses, parses_can_be_written, quotes_are_needed, reads_back};
pub use spelling::{is_plain, write_name, write_name_if, write_number, write_quoted};
pub use statements::write_statement;
pub use write::write_expression;
