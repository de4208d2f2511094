//! Partition keys and bounds (42P16, 42P17).

ghost use Rattle.std.specs.Prelude.{◌≡◌, IfOk};
ghost use Rattle.refusals.specs.Refusals as refusals;

use crate::told::{digits, of_one, of_three, of_two};
use pg_values::{Fault, NoMemory};
use std::alloc::Global;

/// `<strategy> takes one column`
pub fn takes_one_column(alloc: Global, strategy: &[u8]) -> Result<Fault, NoMemory>
    ensures { IfOk result (λ f. f ≡ refusals.takes_one_column strategy.now) }
{
    of_two(alloc, *b"42P16", b"<strategy> takes one column", strategy)
}

/// `column <c> is twice in the key`
pub fn twice_in_key(alloc: Global, column: &[u8]) -> Result<Fault, NoMemory>
    ensures { IfOk result (λ f. f ≡ refusals.twice_in_key column.now) }
{
    of_two(alloc, *b"42P16", b"column <c> is twice in the key", column)
}

/// `the bound does not suit <strategy>`
pub fn bound_does_not_suit(alloc: Global, strategy: &[u8]) -> Result<Fault, NoMemory>
    ensures { IfOk result (λ f. f ≡ refusals.bound_does_not_suit strategy.now) }
{
    of_two(
        alloc,
        *b"42P16",
        b"the bound does not suit <strategy>",
        strategy,
    )
}

/// `the bound has <n> values for <m>`
pub fn wrong_bound_count(alloc: Global, given: u64, wanted: u64) -> Result<Fault, NoMemory>
    ensures { IfOk result (λ f. f ≡ refusals.wrong_bound_count given wanted) }
{
    let given = digits(alloc, given)?;
    let wanted = digits(alloc, wanted)?;
    of_three(
        alloc,
        *b"42P16",
        b"the bound has <n> values for <m>",
        given.as_bytes(),
        wanted.as_bytes(),
    )
}

/// `null in a range bound`
pub fn null_in_range(alloc: Global) -> Result<Fault, NoMemory>
    ensures { IfOk result (λ f. f ≡ refusals.null_in_range) }
{
    of_one(alloc, *b"42P16", b"null in a range bound")
}

/// `<word> must be repeated`
pub fn not_repeated(alloc: Global, word: &[u8]) -> Result<Fault, NoMemory>
    ensures { IfOk result (λ f. f ≡ refusals.not_repeated word.now) }
{
    of_two(alloc, *b"42P16", b"<word> must be repeated", word)
}

/// `bad modulus or remainder`
pub fn bad_remainder(alloc: Global) -> Result<Fault, NoMemory>
    ensures { IfOk result (λ f. f ≡ refusals.bad_remainder) }
{
    of_one(alloc, *b"42P16", b"bad modulus or remainder")
}

/// `a hash table has no default`
pub fn no_hash_default(alloc: Global) -> Result<Fault, NoMemory>
    ensures { IfOk result (λ f. f ≡ refusals.no_hash_default) }
{
    of_one(alloc, *b"42P16", b"a hash table has no default")
}

/// `empty range`
pub fn empty_range(alloc: Global) -> Result<Fault, NoMemory>
    ensures { IfOk result (λ f. f ≡ refusals.empty_range) }
{
    of_one(alloc, *b"42P17", b"empty range")
}

/// `<t> has the default <d>`
pub fn second_default(alloc: Global, table: &[u8], default: &[u8]) -> Result<Fault, NoMemory>
    ensures { IfOk result (λ f. f ≡ refusals.second_default table.now default.now) }
{
    of_three(alloc, *b"42P17", b"<t> has the default <d>", table, default)
}

/// `modulus <m> does not suit <n>`
pub fn modulus_does_not_suit(alloc: Global, modulus: u64, other: u64) -> Result<Fault, NoMemory>
    ensures { IfOk result (λ f. f ≡ refusals.modulus_does_not_suit modulus other) }
{
    let modulus = digits(alloc, modulus)?;
    let other = digits(alloc, other)?;
    of_three(
        alloc,
        *b"42P17",
        b"modulus <m> does not suit <n>",
        modulus.as_bytes(),
        other.as_bytes(),
    )
}

/// `the bound overlaps <p>`
pub fn bound_overlaps(alloc: Global, partition: &[u8]) -> Result<Fault, NoMemory>
    ensures { IfOk result (λ f. f ≡ refusals.bound_overlaps partition.now) }
{
    of_two(alloc, *b"42P17", b"the bound overlaps <p>", partition)
}
