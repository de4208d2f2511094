//! Cuts the text of a block of SQL into tokens, by the rules of PostgreSQL's "4.1 Lexical
//! Structure".
//!
//! A text is read from the left in pieces. What stands at its front is a gap (blanks or a
//! comment), a token, or a fault: bytes that begin no token, or a text, name or comment that is
//! not closed or is no UTF-8. The longest token that the bytes can make is taken. A gap is passed
//! over, a token is noted with its kind and its places, and a fault is noted as the last token, at
//! the place where its piece begins, since nothing behind it can be read for sure.
//!
//! A token holds no bytes, so no text is copied to read it. `name_of`, `string_of` and `number_of`
//! tell what a token says when it is asked for. A name without quotes is folded to lower case and
//! may be a word, in any case of letters; one in quotes is taken as it is, and is no word.
//!
//! `TokenKind` has the words that may be names before the reserved words, which may not. `is_left_out`
//! tells which tokens are named in a refusal, because what they begin is left out; `called` is the
//! name by which they go there.
#![tactic(auto)]

mod bytes;
mod comments;
mod contents;
mod kind;
mod numbers;
mod piece;
mod quotes;
mod reader;
mod signs;
mod token;
mod words;
mod written;

pub use bytes::{Class, belongs};
pub use contents::{called, name_of, number_of, string_of};
pub use kind::{TokenKind, is_left_out, is_name, same_kind};
pub use reader::read_tokens;
pub use token::Token;
pub use words::word_kind;
pub use written::{names_read_back, strings_read_back};
