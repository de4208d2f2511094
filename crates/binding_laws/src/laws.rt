ghost use Rattle.binding_laws.specs.Fitting.{ConditionsFit, GivenFit, OperandsFit, PushedFit};

/// An operand that is bound has its kind, and its columns lie in their items.
pub fn operands_fit()
    ensures { OperandsFit }
{}

/// In a condition that is bound the columns lie in their items, and sides that are compared are of kinds
/// that may be compared.
pub fn conditions_fit()
    ensures { ConditionsFit }
{}

/// So do they where NOT is pushed inwards, or where values stand in the places of parameters.
pub fn rewritten_conditions_fit()
    ensures pushed { PushedFit }
    ensures given { GivenFit }
{}
