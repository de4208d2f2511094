//! A worked example: lists of at most three entries, which are numbers and names.
//!
//! ```text
//! list  = entry { "," entry }
//! entry = number | name
//! ```
//!
//! where a number stands behind the name "each", and behind no other. To write a grammar like
//! this one:
//!
//! 1. Write each production as a rule, in `specs/`, with the combinators: `either` for `|`,
//!    `follow` where what comes next depends on what was read, `chain_by` for a list with a limit
//!    (`specs/Example.antt`).
//! 2. Prove the law of each, one expression that follows the rule's: `alt` for `either`, `then_by`
//!    for `follow`, `chained_by` for `chain_by` (`proofs/ExampleLaws.antt`). State it with named
//!    classes, and `wide`. `apart` and `within` compute the side conditions; one that fails
//!    shows a place where one token of look-ahead does not decide.
//! 3. Write a function for each rule, whose contract is `Gives .. result (rule.read tokens.now)`:
//!    one function, one choice. Most need no proof file.
//! 4. A list takes two functions: one step (`one_more`), and the loop that counts (`more_entries`),
//!    whose invariant and answers are the same text for every list.
//! 5. `parse_entries` hands over to `read_all`, and its answer cites the law.

ghost use Rattle.std.specs.Prelude.{◌≡◌, length, List};
ghost use Rattle.grammar.specs.declared.example.Entry.{Entry};
ghost use Rattle.grammar.specs.declared.example.Token.{Token};
ghost use Rattle.grammar.specs.Example as grammar;
ghost use Rattle.grammar.specs.Gives.{Gives};
ghost use Rattle.grammar.specs.Parses.{Parses};
ghost use Rattle.grammar.specs.Reading.{begins_in, read_one, read_whole};
ghost use Rattle.grammar.specs.Repeats.{read_repeats, read_step};

use crate::{Refused, split};
use std::alloc::Global;

/// What a token is.
#[derive(Clone, Copy, Debug, PartialEq, Eq)]
pub enum SampleKind {
    Comma,
    Name,
    Each,
    Number,
}

/// A token. The value is a number's, or tells one name from another.
#[derive(Clone, Copy, Debug, PartialEq, Eq)]
pub struct Token {
    pub kind: SampleKind,
    pub value: u8,
}

/// An entry of a list.
#[derive(Clone, Copy, Debug, PartialEq, Eq)]
pub enum Entry {
    Number(u8),
    Name(u8),
    Each(u8),
}

fn is_comma(token: Token) -> bool
    ensures { result ≡ grammar.is_comma token }
{
    matches!(token.kind, SampleKind::Comma)
}

fn is_name(token: Token) -> bool
    ensures { result ≡ grammar.is_name token }
{
    matches!(token.kind, SampleKind::Name | SampleKind::Each)
}

fn is_number(token: Token) -> bool
    ensures { result ≡ grammar.is_number token }
{
    matches!(token.kind, SampleKind::Number)
}

fn number(tokens: &[Token]) -> Result<(Token, &[Token]), Refused>
    ensures { Gives (λ x. (x.0, x.1.now)) result (read_one grammar.is_number tokens.now) }
{
    match split(tokens) {
        None => Err(Refused::Syntax(0)),
        Some((first, rest)) => {
            if is_number(first) {
                Ok((first, rest))
            } else {
                Err(Refused::Syntax(tokens.len()))
            }
        }
    }
}

fn behind_name(name: Token, tokens: &[Token]) -> Result<(Entry, &[Token]), Refused>
    ensures { Gives (λ x. (x.0, x.1.now)) result ((grammar.behind_name name).read tokens.now) }
{
    if matches!(name.kind, SampleKind::Each) {
        let (count, rest) = number(tokens)?;
        return Ok((Entry::Each(count.value), rest));
    }
    Ok((Entry::Name(name.value), tokens))
}

fn one_entry(tokens: &[Token]) -> Result<(Entry, &[Token]), Refused>
    ensures { Gives (λ x. (x.0, x.1.now)) result (grammar.entry.read tokens.now) }
{
    let Some((first, rest)) = split(tokens) else {
        return Err(Refused::Syntax(0));
    };
    if is_name(first) {
        return behind_name(first, rest);
    }
    let (count, rest) = number(tokens)?;
    Ok((Entry::Number(count.value), rest))
}

// One more entry, if a comma comes; or false.
#[tactic(auto, unfolding(crate::specs::Repeats::read_step))]
fn one_more(mut done: Vec<Entry>, tokens: &[Token]) -> Result<(bool, Vec<Entry>, &[Token]), Refused>
    ensures { Gives (λ x. ((x.0, x.1.items), x.2.now)) result (read_step grammar.is_comma grammar.has_room grammar.snoc (λ _. grammar.entry.read) done.items tokens.now) }
{
    let Some((sign, rest)) = split(tokens) else {
        return Ok((false, done, tokens));
    };
    if !is_comma(sign) {
        return Ok((false, done, tokens));
    }
    if done.len() >= 3 {
        return Err(Refused::Limit(tokens.len()));
    }
    let (next, rest) = one_entry(rest)?;
    done.push(next)?;
    Ok((true, done, rest))
}

fn more_entries(first: Vec<Entry>, tokens: &[Token]) -> Result<(Vec<Entry>, &[Token]), Refused>
    ensures { Gives (λ x. (x.0.items, x.1.now)) result (read_repeats grammar.is_comma grammar.has_room grammar.snoc (λ _. grammar.entry.read) (length tokens.now) first.items tokens.now) }
{
    let mut done = first;
    let mut rest = tokens;
    for _ in 0..tokens.len() {
        let (more, longer, after) = one_more(done, rest)?;
        if !more {
            return Ok((longer, after));
        }
        done = longer;
        rest = after;
    }
    Ok((done, rest))
}

fn entries(alloc: Global, tokens: &[Token]) -> Result<(Vec<Entry>, &[Token]), Refused>
    ensures { Gives (λ x. (x.0.items, x.1.now)) result (grammar.entry_list.read tokens.now) }
{
    let (first, rest) = one_entry(tokens)?;
    let mut done = Vec::new(alloc);
    done.push(first)?;
    more_entries(done, rest)
}

#[tactic(auto, unfolding(crate::specs::Reading::read_whole))]
fn read_all(alloc: Global, tokens: &[Token]) -> Result<Vec<Entry>, Refused>
    ensures { Gives (λ v. v.items) result (read_whole grammar.entry_list tokens.now) }
{
    let (done, rest) = entries(alloc, tokens)?;
    match split(rest) {
        None => Ok(done),
        Some(_) => Err(Refused::Syntax(rest.len())),
    }
}

/// The entries of the tokens, or the first token that does not fit: a fourth entry's comma is
/// beyond the limit.
pub fn parse_entries(alloc: Global, tokens: &[Token]) -> Result<Vec<Entry>, Refused>
    ensures { Parses grammar.entry_list (λ v. v.items) tokens.now result }
{
    read_all(alloc, tokens)
}

/// No tokens are the text of two lists.
pub fn no_list_has_two_values()
    ensures { (ts : List Token) (xs ys : List Entry) → grammar.entry_list.texts ts xs → grammar.entry_list.texts ts ys → ys ≡ xs }
{}
