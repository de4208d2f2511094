ghost use Rattle.std.specs.Prelude.{◌≡◌, MatchOption, [], ◌∷◌};

/// The first token, and those behind it.
pub fn split<T: Copy>(tokens: &[T]) -> Option<(T, &[T])>
    ensures { MatchOption result (tokens.now ≡ []) (λ x. tokens.now ≡ x.0 ∷ x.1.now) }
{
    let (first, rest) = tokens.split_first()?;
    Some((*first, rest))
}
