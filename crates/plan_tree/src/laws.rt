ghost use Rattle.plan_tree.specs.Counts.{CountsAreTimes};
ghost use Rattle.plan_tree.specs.Laws.{NoneIsMissed, ShownLieRight, TreesCanBePruned, TreesStandInOrder};

/// Where rows lie in leaves that accept them, those of all leaves that pass are those of the kept leaves.
pub fn none_is_missed()
    ensures { NoneIsMissed }
{}

/// In each history of the stores they lie so, for each snapshot that a session reads under.
pub fn shown_lie_right()
    ensures { ShownLieRight }
{}

/// Each tree of a history can be pruned.
pub fn trees_can_be_pruned()
    ensures { TreesCanBePruned }
{}

/// At the top of each its bounds stand in plain order, and none overlap.
pub fn trees_stand_in_order()
    ensures { TreesStandInOrder }
{}

/// What is counted of a node of a plan that is run is how often that happened.
pub fn counts_are_times()
    ensures { CountsAreTimes }
{}
