ghost use Rattle.part_catalog.specs.Forgotten.{GoneAreHidden, GoneStayGone, ForgottenAreNotMissed, ThinStaysThin};
ghost use Rattle.part_catalog.specs.Laws.{SiblingsAreKept};

/// Where the entries that are present for a session are siblings, they are so after an entry was added
/// that is a sibling of each.
pub fn siblings_are_kept()
    ensures { SiblingsAreKept }
{}

/// An entry whose birth was aborted or whose end is committed is there for nobody, and no event brings it
/// back. So a list of entries may do without it: each session has the same entries, and each snapshot is shown
/// the same.
pub fn forgotten_are_not_missed()
    ensures hidden { GoneAreHidden }
    ensures stay { GoneStayGone }
    ensures missed { ForgottenAreNotMissed }
    ensures thin { ThinStaysThin }
{}
