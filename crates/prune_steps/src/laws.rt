ghost use Rattle.prune_steps.specs.Laws.{PruningIsSound, KeepsByConjuncts, GivesByConjuncts, PushingKeepsAlike};

/// A row that passes the condition lies in a kept child: where a child of the level accepts it, that
/// child is kept.
pub fn pruning_is_sound()
    ensures { PruningIsSound }
{}

/// The parts of a flattened AND are the conjuncts of the condition: it keeps what all of them keep, and of
/// their equalities on a key column it gives the first.
pub fn parts_are_conjuncts()
    ensures keeps { KeepsByConjuncts }
    ensures gives { GivesByConjuncts }
{}

/// A condition keeps the same with NOT pushed inwards, whatever is known.
pub fn pushing_keeps_alike()
    ensures { PushingKeepsAlike }
{}
