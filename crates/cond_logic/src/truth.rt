ghost use Rattle.std.specs.Prelude.{◌≡◌};
ghost use Rattle.cond_logic.specs.Truths.{least, greatest, opposite, decided};

/// The truth of a condition. Of two, No is below Unknown, and Unknown below Yes.
#[derive(Clone, Copy, Debug, PartialEq, Eq)]
pub enum Truth3 {
    Yes,
    No,
    Unknown,
}

impl Truth3 {
    /// NOT.
    pub fn opposite(self) -> Self
        ensures { result ≡ opposite self }
    {
        match self {
            Truth3::Yes => Truth3::No,
            Truth3::No => Truth3::Yes,
            Truth3::Unknown => Truth3::Unknown,
        }
    }

    /// AND.
    pub fn least(self, other: Self) -> Self
        ensures { result ≡ least self other }
    {
        match (self, other) {
            (Truth3::No, _) | (_, Truth3::No) => Truth3::No,
            (Truth3::Yes, Truth3::Yes) => Truth3::Yes,
            _ => Truth3::Unknown,
        }
    }

    /// OR.
    pub fn greatest(self, other: Self) -> Self
        ensures { result ≡ greatest self other }
    {
        match (self, other) {
            (Truth3::Yes, _) | (_, Truth3::Yes) => Truth3::Yes,
            (Truth3::No, Truth3::No) => Truth3::No,
            _ => Truth3::Unknown,
        }
    }

    /// The truth of a test that is never unknown.
    #[inline]
    pub fn decided(b: bool) -> Self
        ensures { result ≡ decided b }
    {
        if b { Truth3::Yes } else { Truth3::No }
    }
}
