ghost use Rattle.std.specs.Prelude.{◌≡◌, ◌≤◌, ◌<◌, ◌++◌, ◌∷◌, [], take, false, slice_get};
ghost use Rattle.std.specs.List.{IsDistinct, list_any};
ghost use Rattle.std.specs.Prelude.{nat_eq};
ghost use Rattle.std.proofs.Props.{props};
ghost use Rattle.pg_values.specs.Numbers.{AreBelow65};

/// A list of sessions, each at most once, as in a cycle of waits. It takes no memory: there are 65
/// sessions, so no list is longer.
#[derive(Clone, Copy)]
pub struct SessionList {
    places: [u8; 65],
    count: usize,
    ghost within: { count ≤ 65 },
    ghost apart: { IsDistinct nat_eq (take count places) } by { Prim.hlevel props },
    ghost small: { AreBelow65 (take count places) },
}

impl SessionList {
    ghost use Rattle.pg_values.specs.Lists.{listed};

    /// No session.
    pub fn empty() -> Self
        ensures { listed result ≡ [] }
    {
        SessionList {
            places: [0; 65],
            count: 0,
        }
    }

    /// The session at the place, and none past the end.
    pub fn at(&self, i: usize) -> Option<u32>
        ensures { result ≡ slice_get (listed self.now) i }
    {
        if i < self.count {
            Some(self.places[i] as u32)
        } else {
            None
        }
    }

    /// The list with the session behind the others.
    pub fn with(self, session: u32) -> Self
        requires small { session < 65 }
        requires new { list_any (nat_eq session) (listed self) ≡ false }
        ensures { listed result ≡ listed self ++ session ∷ [] }
    {
        let mut places = self.places;
        places[self.count] = session as u8;
        SessionList {
            places,
            count: self.count + 1,
        }
    }
}
