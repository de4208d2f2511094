ghost use Rattle.legal_statements.specs.ShownPartitions.{AttachedAgainIsAnother, TreesShowWhatIsAttached};

/// To each leaf of the tree that a session's statement reads lead entries whose births count for the session, of which
/// no end counts, and of which its snapshot sees no mark, unless it was taken back.
pub fn trees_show_what_is_attached()
    ensures { TreesShowWhatIsAttached }
{}

/// An entry that is added is none that was there before, and no older mark or end is one of it.
pub fn attached_again_is_another()
    ensures { AttachedAgainIsAnother }
{}
