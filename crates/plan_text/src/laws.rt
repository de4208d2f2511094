ghost use Rattle.plan_text.specs.Conditions.{ConjunctsAreTold};
ghost use Rattle.plan_text.specs.ScanLines.{ScansAreOfTheLeaves};

/// The lines of a plan that are scans tell the leaves of its items, in order.
pub fn scans_are_of_the_leaves()
    ensures { ScansAreOfTheLeaves }
{}

/// The text of a condition is that of its conjuncts, each told by itself.
pub fn conjuncts_are_told()
    ensures { ConjunctsAreTold }
{}
