ghost use Rattle.std.specs.Prelude.{◌≡◌, ◌<◌, ◌≤◌, ◌^◌, ◌==◌, ◌&&◌, ◌||◌, not, ℕ, Bool, true, false, IfSome, None};
ghost use Rattle.std.specs.Prelude.{nat_eq};
ghost use Rattle.std.specs.List.{list_any};
ghost use Rattle.pg_values.specs.Sets.{has, sessions, empty, without, nobody};

/// A set of sessions, as the bits of two machine words.
#[derive(Clone, Copy, Debug, PartialEq, Eq)]
pub struct SessionSet {
    bits: u128,
}

impl SessionSet {
    /// No session.
    pub fn empty() -> Self
        ensures has { (k : ℕ) → has result k ≡ false }
        ensures is { result ≡ empty }
    {
        SessionSet { bits: 0 }
    }

    /// Whether no session is in it.
    pub fn is_empty(self) -> bool
        ensures is { (p : ℕ → Bool) → ((k : ℕ) → has self k ≡ p k) → result ≡ nobody p }
        ensures none { result ≡ true → (k : ℕ) → has self k ≡ false }
        ensures some { result ≡ false → (k : ℕ) × (k < 128) × (has self k ≡ true) }
    {
        self.bits == 0
    }

    fn has_bit(self, session: u32) -> bool
        ensures { result ≡ has self session }
    {
        session < 128 && (self.bits >> session) & 1 == 1
    }

    /// Whether the session is in it.
    pub fn has(&self, session: u32) -> bool
        ensures is { result ≡ has self.now session }
        ensures listed { session < 128 → result ≡ list_any (nat_eq session) (sessions self.now) }
    {
        self.has_bit(session)
    }

    /// The set with the session.
    pub fn with(self, session: u32) -> Self
        requires { session < 128 }
        ensures { (k : ℕ) → has result k ≡ ((k == session) || has self k) }
    {
        SessionSet {
            bits: self.bits | (1 << session),
        }
    }

    /// The set without the session.
    pub fn without(self, session: u32) -> Self
        requires { session < 128 }
        ensures has { (k : ℕ) → has result k ≡ (not (k == session) && has self k) }
        ensures is { result ≡ without self session }
    {
        SessionSet {
            bits: self.bits & !(1 << session),
        }
    }

    /// The sessions that are in one of the two sets, or in both.
    pub fn union(self, other: Self) -> Self
        ensures { (k : ℕ) → has result k ≡ (has self k || has other k) }
    {
        SessionSet {
            bits: self.bits | other.bits,
        }
    }

    /// The sessions that are in both sets.
    pub fn meet(self, other: Self) -> Self
        ensures { (k : ℕ) → has result k ≡ (has self k && has other k) }
    {
        SessionSet {
            bits: self.bits & other.bits,
        }
    }

    /// Whether the other set has all its sessions.
    pub fn is_within(self, other: Self) -> bool
        ensures all { result ≡ true → (k : ℕ) → has self k ≡ true → has other k ≡ true }
        ensures some { result ≡ false → (k : ℕ) × (k < 128) × (has self k ≡ true) × (has other k ≡ false) }
    {
        self.bits & !other.bits == 0
    }

    /// The session with the least number.
    pub fn least(self) -> Option<u32>
        ensures found { IfSome result (λ k. (k < 128) × (has self k ≡ true) × ((j : ℕ) → j < k → has self j ≡ false)) }
        ensures none { result ≡ None → (k : ℕ) → has self k ≡ false }
    {
        if self.bits == 0 {
            None
        } else {
            Some(self.bits.trailing_zeros())
        }
    }
}
