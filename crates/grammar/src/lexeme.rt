/// A token as grammars see it.
pub trait Lexeme: Copy {
    ghost use Rattle.std.specs.Prelude.{◌≡◌, Bool};

    type Kind: Copy;

    /// The class of the tokens of a kind.
    ghost a: { Self.Kind → Self → Bool };

    /// The class of the tokens that are names.
    ghost a_name: { Self → Bool };

    fn is(self, kind: Self::Kind) -> bool
        ensures { result ≡ a kind self };

    fn is_name(self) -> bool
        ensures { result ≡ a_name self };
}
