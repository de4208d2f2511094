//! What this profile leaves out, and how much is too much (0A000, 54000).

ghost use Rattle.std.specs.Prelude.{◌≡◌, IfOk};
ghost use Rattle.refusals.specs.Refusals as refusals;

use crate::told::of_one;
use pg_values::{Fault, NoMemory, Which};
use std::alloc::Global;

/// `<word> is not in this profile`
pub fn left_out(alloc: Global, word: &[u8]) -> Result<Fault, NoMemory>
    ensures { IfOk result (λ f. f ≡ refusals.left_out word.now) }
{
    of_one(alloc, *b"0A000", word)
}

/// `too many <which>`
pub fn too_many(alloc: Global, which: Which) -> Result<Fault, NoMemory>
    ensures { IfOk result (λ f. f ≡ refusals.too_many which) }
{
    of_one(alloc, *b"54000", which.word())
}
