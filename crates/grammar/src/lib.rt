//! Grammars over any type of token, and the one law that a parser's promise rests on.
//!
//! A rule of a grammar is three things (`specs/Reading.antt`): which lists of tokens are texts of
//! which values, the same without limits, and a function that reads one text from the left with
//! one token of look-ahead. Rules are built from smaller ones: one token, one text after
//! another, one of two, repeats with signs between (`specs/Repeats.antt`).
//!
//! The law of a rule (`proofs/Laws.antt`) ties the three: what was read is a text of its value
//! and of no other; and where the reader stops, what stands before the token begins a text, and
//! no text goes on with that token. Each way to build a rule keeps the law, under side
//! conditions that say that the next token decides, and that are computed over the kinds of
//! tokens. From the law of a rule follows what a parser promises, `Parses`
//! (`specs/Parses.antt`), for code that answers as the rule's function does.
//!
//! So the code of a production needs next to no proof, and its law is one expression. `example`
//! shows a whole grammar, from its productions to `parse_entries`.
//!
//! What grammars say again and again, over any type of token.
//!
//! A token is a `Lexeme`: it is of a kind or not, and a name or not. `specs/Words.antt` has the rules
//! that are made of such tests: a word and what stands behind it, parentheses, lists with commas
//! between or without. Each function answers as the reader of its rule does, so that the code of a
//! production is one call after another. A `Part` is a production that stands in a list or is a whole
//! text; `StopsAt` in `specs/Places.antt` says what a refusal at a token means.
//!
//! What the tokenizers of SQL and of scripts share: places in a text, and texts between quotes, in which two
//! quotes stand for one.
#![tactic(auto)]

pub mod example;
mod lexeme;
mod parts;
mod places;
mod quotes;
mod refused;
mod text_places;
mod tokens;
mod words;

pub use lexeme::Lexeme;
pub use parts::{Begun, Part, any, many, more_parts, separated, some};
pub use places::{token_at, whole};
pub use quotes::{closing, undoubled};
pub use refused::Refused;
pub use text_places::{behind, byte, inside_of, slice};
pub use tokens::split;
pub use words::{comes, maybe_word, name, name_comes, word};
