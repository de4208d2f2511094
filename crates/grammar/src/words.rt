ghost use Rattle.std.specs.Prelude.{◌≡◌};
ghost use Rattle.grammar.specs.Gives.{Gives};
ghost use Rattle.grammar.specs.Reading.{begins_in, read_one};
ghost use Rattle.grammar.specs.Words as words;

use crate::{Lexeme, Refused, split};

/// Whether a token of the kind comes next.
pub fn comes<T: Lexeme>(tokens: &[T], kind: T::Kind) -> bool
    ensures { result ≡ begins_in (T.a kind) tokens.now }
{
    match split(tokens) {
        None => false,
        Some((first, _)) => first.is(kind),
    }
}

/// Whether a name comes next.
pub fn name_comes<T: Lexeme>(tokens: &[T]) -> bool
    ensures { result ≡ begins_in T.a_name tokens.now }
{
    match split(tokens) {
        None => false,
        Some((first, _)) => first.is_name(),
    }
}

/// A token of the kind.
pub fn word<T: Lexeme>(tokens: &[T], kind: T::Kind) -> Result<(T, &[T]), Refused>
    ensures { Gives (λ x. (x.0, x.1.now)) result (read_one (T.a kind) tokens.now) }
{
    match split(tokens) {
        None => Err(Refused::Syntax(0)),
        Some((first, rest)) => {
            if first.is(kind) {
                Ok((first, rest))
            } else {
                Err(Refused::Syntax(tokens.len()))
            }
        }
    }
}

/// A name.
pub fn name<T: Lexeme>(tokens: &[T]) -> Result<(T, &[T]), Refused>
    ensures { Gives (λ x. (x.0, x.1.now)) result (read_one T.a_name tokens.now) }
{
    match split(tokens) {
        None => Err(Refused::Syntax(0)),
        Some((first, rest)) => {
            if first.is_name() {
                Ok((first, rest))
            } else {
                Err(Refused::Syntax(tokens.len()))
            }
        }
    }
}

/// A token of the kind, or nothing.
pub fn maybe_word<T: Lexeme>(tokens: &[T], kind: T::Kind) -> Result<(Option<T>, &[T]), Refused>
    ensures { Gives (λ x. (x.0, x.1.now)) result ((words.maybe (T.a kind)).read tokens.now) }
{
    if !comes(tokens, kind) {
        return Ok((None, tokens));
    }
    let (first, rest) = word(tokens, kind)?;
    Ok((Some(first), rest))
}
