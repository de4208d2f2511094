ghost use Rattle.cond_logic.specs.Laws.{PushingKeepsTruth, NotStandsOverNullTests, BindingKeepsTruth, BindingLeavesNoGivenParameter, ConjunctsKeepTruth};

/// Pushing NOT inwards keeps the truth of every tuple.
pub fn pushing_keeps_truth()
    ensures { PushingKeepsTruth }
{}

/// After it NOT stands over IS NULL alone.
pub fn not_stands_over_null_tests()
    ensures { NotStandsOverNullTests }
{}

/// Arguments in the places of their parameters keep the truth of every tuple.
pub fn binding_keeps_truth()
    ensures { BindingKeepsTruth }
{}

/// After it no parameter is left for which an argument was given.
pub fn binding_leaves_no_given_parameter()
    ensures { BindingLeavesNoGivenParameter }
{}

/// The conjuncts of a condition have together its truth for every tuple.
pub fn conjuncts_keep_truth()
    ensures { ConjunctsKeepTruth }
{}
