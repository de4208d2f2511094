ghost use Rattle.std.specs.Prelude.{◌≡◌, ◌<◌};
ghost use Rattle.pg_values.specs.Modes.{rank, conflicting, conflicts, every_mode};

/// A mode of locks on tables, from the weakest to the strongest.
#[derive(Clone, Copy, Debug, PartialEq, Eq)]
pub enum LockMode {
    AccessShare,
    RowShare,
    RowExclusive,
    ShareUpdateExclusive,
    Share,
    ShareRowExclusive,
    Exclusive,
    AccessExclusive,
}

impl LockMode {
    /// All modes, the weakest first.
    pub fn every() -> &'static [LockMode]
        ensures { result.now ≡ every_mode }
    {
        &[
            LockMode::AccessShare,
            LockMode::RowShare,
            LockMode::RowExclusive,
            LockMode::ShareUpdateExclusive,
            LockMode::Share,
            LockMode::ShareRowExclusive,
            LockMode::Exclusive,
            LockMode::AccessExclusive,
        ]
    }

    /// Its place among the modes.
    pub fn rank(self) -> usize
        ensures is { result ≡ rank self }
        ensures small { result < 8 }
    {
        self as usize
    }

    /// The modes that it conflicts with.
    pub fn conflicting(self) -> &'static [LockMode]
        ensures { result.now ≡ conflicting self }
    {
        match self {
            LockMode::AccessShare => &[LockMode::AccessExclusive],
            LockMode::RowShare => &[LockMode::Exclusive, LockMode::AccessExclusive],
            LockMode::RowExclusive => &[
                LockMode::Share,
                LockMode::ShareRowExclusive,
                LockMode::Exclusive,
                LockMode::AccessExclusive,
            ],
            LockMode::ShareUpdateExclusive => &[
                LockMode::ShareUpdateExclusive,
                LockMode::Share,
                LockMode::ShareRowExclusive,
                LockMode::Exclusive,
                LockMode::AccessExclusive,
            ],
            LockMode::Share => &[
                LockMode::RowExclusive,
                LockMode::ShareUpdateExclusive,
                LockMode::ShareRowExclusive,
                LockMode::Exclusive,
                LockMode::AccessExclusive,
            ],
            LockMode::ShareRowExclusive => &[
                LockMode::RowExclusive,
                LockMode::ShareUpdateExclusive,
                LockMode::Share,
                LockMode::ShareRowExclusive,
                LockMode::Exclusive,
                LockMode::AccessExclusive,
            ],
            LockMode::Exclusive => &[
                LockMode::RowShare,
                LockMode::RowExclusive,
                LockMode::ShareUpdateExclusive,
                LockMode::Share,
                LockMode::ShareRowExclusive,
                LockMode::Exclusive,
                LockMode::AccessExclusive,
            ],
            LockMode::AccessExclusive => LockMode::every(),
        }
    }

    /// Whether the two modes conflict.
    pub fn conflicts(self, other: LockMode) -> bool
        ensures { result ≡ conflicts self other }
    {
        let mut any = false;
        for mode in self.conflicting() {
            any |= mode.rank() == other.rank();
        }
        any
    }
}

/// Modes conflict both ways.
pub fn conflicts_are_mutual()
    ensures { (a b : LockMode) → conflicts a b ≡ conflicts b a }
{}
