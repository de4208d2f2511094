ghost use Rattle.std.specs.Prelude.{◌≡◌, ◌∷◌, [], IfOk, length, map};
ghost use Rattle.grammar.specs.Gives.{Gives};
ghost use Rattle.grammar.specs.Reading.{begins_in};
ghost use Rattle.grammar.specs.Repeats as repeats;
ghost use Rattle.grammar.specs.Repeats.{always, read_many, read_repeats, read_step};
ghost use Rattle.grammar.specs.Steps.{many_step, with_earlier};
ghost use Rattle.grammar.specs.Words as words;

use crate::{Lexeme, Refused, comes, word};
use pg_values::NoMemory;
use std::alloc::Global;

/// What stands in a list, or is a whole text: it is read as its rule says.
pub trait Part {
    ghost use Rattle.std.specs.Prelude.{ℕ, List};
    ghost use Rattle.grammar.specs.Gives.{Gives};
    ghost use Rattle.grammar.specs.Reading.{Rule};

    type Token: Lexeme;

    type Item: Drop;

    /// What contracts see of a part.
    ghost Tree: { Type 0 };

    ghost tree: { Self.Item → Tree };

    /// The production of a part, in a text.
    ghost rule: { List ℕ → Rule Self.Token Tree };

    fn read<'a>(
        alloc: Global,
        text: &[u8],
        tokens: &'a [Self::Token],
    ) -> Result<(Self::Item, &'a [Self::Token]), Refused>
        ensures { Gives (λ x. (tree x.0, x.1.now)) result ((rule text.now).read tokens.now) };
}

// How many parts a list has room for that has more than one.
const FEW: usize = 4;

#[tactic(auto, unfolding(crate::specs::Repeats::read_step))]
fn part_step<'a, P: Part>(
    alloc: Global,
    text: &[u8],
    sign: <P::Token as Lexeme>::Kind,
    mut parts: Vec<P::Item>,
    tokens: &'a [P::Token],
) -> Result<(bool, Vec<P::Item>, &'a [P::Token]), Refused>
    ensures { Gives (λ x. ((x.0, map P.tree x.1.items), x.2.now)) result (read_step (P.Token.a sign) always words.snoc (λ _. (P.rule text.now).read) (map P.tree parts.items) tokens.now) }
{
    if !comes(tokens, sign) {
        return Ok((false, parts, tokens));
    }
    let (_, rest) = word(tokens, sign)?;
    let (next, rest) = P::read(alloc, text, rest)?;
    parts.push(next)?;
    Ok((true, parts, rest))
}

/// The parts behind the first ones, each behind a sign: the first ones and those.
pub fn more_parts<'a, P: Part>(
    alloc: Global,
    text: &[u8],
    sign: <P::Token as Lexeme>::Kind,
    first: Vec<P::Item>,
    tokens: &'a [P::Token],
) -> Result<(Vec<P::Item>, &'a [P::Token]), Refused>
    ensures { Gives (λ x. (map P.tree x.0.items, x.1.now)) result (read_repeats (P.Token.a sign) always words.snoc (λ _. (P.rule text.now).read) (length tokens.now) (map P.tree first.items) tokens.now) }
{
    let mut done = first;
    let mut rest = tokens;
    for _ in 0..tokens.len() {
        let (more, longer, after) = part_step::<P>(alloc, text, sign, done, rest)?;
        if !more {
            return Ok((longer, after));
        }
        done = longer;
        rest = after;
    }
    Ok((done, rest))
}

// A list that begins with this part. It has room for no other, unless more are to come.
fn list_from<I: Drop>(alloc: Global, first: I, more: bool) -> Result<Vec<I>, NoMemory>
    ensures { IfOk result (λ parts. parts.items ≡ first ∷ []) }
{
    let room = if more { FEW } else { 1 };
    let mut parts = Vec::with_capacity(alloc, room)?;
    parts.push(first)?;
    Ok(parts)
}

/// Parts with signs between, as commas.
pub fn separated<'a, P: Part>(
    alloc: Global,
    text: &[u8],
    sign: <P::Token as Lexeme>::Kind,
    tokens: &'a [P::Token],
) -> Result<(Vec<P::Item>, &'a [P::Token]), Refused>
    ensures { Gives (λ x. (map P.tree x.0.items, x.1.now)) result ((words.separated (P.Token.a sign) (P.rule text.now)).read tokens.now) }
{
    let (first, rest) = P::read(alloc, text, tokens)?;
    let parts = list_from(alloc, first, comes(rest, sign))?;
    more_parts::<P>(alloc, text, sign, parts, rest)
}

/// Parts that stand behind one another: the next token says whether one more comes.
pub trait Begun: Part {
    ghost use Rattle.std.specs.Prelude.{◌≡◌, Bool};
    ghost use Rattle.grammar.specs.Reading.{begins_in};

    /// The class of the tokens with which a part begins.
    ghost begins: { Self.Token → Bool };

    fn comes(tokens: &[Self::Token]) -> bool
        ensures { result ≡ begins_in begins tokens.now };
}

#[tactic(auto, unfolding(crate::specs::Steps::many_step))]
fn next_part<'a, P: Begun>(
    alloc: Global,
    text: &[u8],
    mut parts: Vec<P::Item>,
    tokens: &'a [P::Token],
) -> Result<(bool, Vec<P::Item>, &'a [P::Token]), Refused>
    ensures { Gives (λ x. ((x.0, map P.tree x.1.items), x.2.now)) result (many_step P.begins (P.rule text.now).read (map P.tree parts.items) tokens.now) }
{
    if !P::comes(tokens) {
        return Ok((false, parts, tokens));
    }
    let (next, rest) = P::read(alloc, text, tokens)?;
    parts.push(next)?;
    Ok((true, parts, rest))
}

/// The parts behind the first ones, as many as come: the first ones and those.
pub fn many<'a, P: Begun>(
    alloc: Global,
    text: &[u8],
    first: Vec<P::Item>,
    tokens: &'a [P::Token],
) -> Result<(Vec<P::Item>, &'a [P::Token]), Refused>
    ensures { Gives (λ x. (map P.tree x.0.items, x.1.now)) result (with_earlier (map P.tree first.items) (read_many P.begins (P.rule text.now).read (length tokens.now) tokens.now)) }
{
    let mut done = first;
    let mut rest = tokens;
    for _ in 0..tokens.len() {
        let (more, longer, after) = next_part::<P>(alloc, text, done, rest)?;
        if !more {
            return Ok((longer, after));
        }
        done = longer;
        rest = after;
    }
    Ok((done, rest))
}

/// One part, and as many more as come.
pub fn some<'a, P: Begun>(
    alloc: Global,
    text: &[u8],
    tokens: &'a [P::Token],
) -> Result<(Vec<P::Item>, &'a [P::Token]), Refused>
    ensures { Gives (λ x. (map P.tree x.0.items, x.1.now)) result ((words.some P.begins (P.rule text.now)).read tokens.now) }
{
    let (first, rest) = P::read(alloc, text, tokens)?;
    let mut parts = Vec::new(alloc);
    parts.push(first)?;
    many::<P>(alloc, text, parts, rest)
}

/// As many parts as come.
pub fn any<'a, P: Begun>(
    alloc: Global,
    text: &[u8],
    tokens: &'a [P::Token],
) -> Result<(Vec<P::Item>, &'a [P::Token]), Refused>
    ensures { Gives (λ x. (map P.tree x.0.items, x.1.now)) result ((repeats.many P.begins (P.rule text.now)).read tokens.now) }
{
    many::<P>(alloc, text, Vec::new(alloc), tokens)
}
