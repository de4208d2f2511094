//! Reads the SQL of a block: statements with semicolons between.
//!
//! A block is read whole or refused whole. The refusal is at the first token with which the block is
//! the beginning of no block, and it says why: the token begins nothing that may stand there (`Syntax`,
//! by its first byte), or it is a word of what is left out by name (`Left`, by the word), or it would do
//! without limits (`TooMany`, by the limit). `specs/Grammar.antt` has the block, `specs/Block.antt` what
//! the parser promises.
//!
//! Two grammars of statements stand below it, with a line for each production, as PostgreSQL's "VI. SQL
//! Commands" writes them. `specs/QueryGrammar.antt` and `specs/Items.antt` are of those that read and
//! change rows: SELECT, INSERT, UPDATE and DELETE, alone, prepared, executed or explained.
//! `specs/CommandGrammar.antt`, with a file for each statement beside it, is of those that do not:
//! transactions, settings, tables and their partitions, locks, and the end of prepared statements.
//!
//! The next token decides how a text goes on, but not everywhere by itself. Of queries there are three
//! such places: behind an expression of a SELECT, BETWEEN may be an operator or an alias; a name begins an
//! expression, or `name.*`; behind UPDATE and a table, SET may be an alias, and a column. The grammar there
//! is the manual's all the same: the reader looks further. Of commands there are three too, where words
//! stand that may be names: IF behind DROP TABLE, PREPARE behind DEALLOCATE, and MINVALUE and MAXVALUE in
//! the bounds of a range. There a name is read first, and the token behind it decides. The grammar has
//! DROP TABLE and DEALLOCATE as they are written all the same: what is read so is proved to have the same
//! texts, in `proofs/NameFirst.antt`.
//!
//! Names are folded, and nothing is looked up.
#![tactic(auto)]

mod alter;
mod bound;
mod changes;
mod commands;
mod create;
mod deallocate;
mod drop;
mod from;
mod items;
mod lock;
mod parse;
mod prepared;
mod queries;
mod selects;
mod setting;
mod statements;
mod transaction;

pub use commands::{command, command_comes, commands_are_read, no_two_commands};
pub use parse::{MOST_STATEMENTS, no_two_blocks, parse_block, refused_blocks_stop_there};
pub use queries::{no_two_queries, queries_are_read, query};
