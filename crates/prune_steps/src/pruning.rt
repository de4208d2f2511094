ghost use Rattle.std.specs.Prelude.{◌≡◌, true};
ghost use Rattle.cond_logic.specs.Rewriting.{is_pushed};
ghost use Rattle.cond_logic.specs.Trees.{cond_tree};

use cond_logic::Cond;

/// The pruning steps of a condition over the columns of a FROM item: the condition with NOT over IS NULL alone. A
/// parameter, and a column of another item, stand in them as places, which are filled when the steps are run.
#[derive(Debug, Drop)]
pub struct Pruning {
    pub item: u32,
    pub(crate) cond: Cond,
    ghost inwards: { is_pushed (cond_tree cond) ≡ true },
}
