ghost use Rattle.std.specs.Prelude.{◌≡◌};
ghost use Rattle.grammar.specs.Gives.{Gives};
ghost use Rattle.grammar.specs.Reading.{read_whole};
ghost use Rattle.grammar.specs.Places as places;

use crate::{Part, Refused, split};
use std::alloc::Global;

/// A part that all the tokens are.
#[tactic(auto, unfolding(crate::specs::Reading::read_whole))]
pub fn whole<P: Part>(alloc: Global, text: &[u8], tokens: &[P::Token]) -> Result<P::Item, Refused>
    ensures { Gives P.tree result (read_whole (P.rule text.now) tokens.now) }
{
    let (part, rest) = P::read(alloc, text, tokens)?;
    match split(rest) {
        None => Ok(part),
        Some(_) => Err(Refused::Syntax(rest.len())),
    }
}

/// The token from which on so many are left, or none at the end.
pub fn token_at<T: Copy>(tokens: &[T], left: usize) -> Option<T>
    ensures { result ≡ places.token_at tokens.now left }
{
    tokens.get(tokens.len().saturating_sub(left)).copied()
}
