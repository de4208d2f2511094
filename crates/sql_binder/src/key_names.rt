ghost use Rattle.std.specs.Prelude.{◌≡◌, Some, length, map, IfOk, OnOk};
ghost use Rattle.std.specs.Option.{option_copied};
ghost use Rattle.sql_ast.specs.Expressions.{tree};
ghost use Rattle.sql_binder.specs.KeyNames as spec;
ghost use Rattle.sql_binder.specs.Keys as keys;
ghost use Rattle.sql_binder.specs.Lent.{heading};

use crate::heading::Heading;
use crate::keys::Named;
use crate::same::same;
use expression_binder::Names;
use indexmap::IndexMap;
use pg_values::NoMemory;
use sql_ast::Expr;
use std::alloc::Global;

/// The first output column of a name, and whether all of that name give its expression.
#[derive(Drop)]
pub struct FirstOutput<'o> {
    place: usize,
    value: &'o Expr,
    is_one: bool,
}

// What is known of a name once one more output column has it.
fn with_output<'o>(
    names: &Names<'_>,
    first: Option<&FirstOutput<'o>>,
    place: usize,
    value: &'o Expr,
) -> FirstOutput<'o>
    ensures { spec.seen (Some result) ≡ Some (spec.with_output names.now.items (spec.seen (option_copied first.entry)) place (tree value.now)) }
{
    match first {
        None => FirstOutput {
            place,
            value,
            is_one: true,
        },
        Some(first) => FirstOutput {
            place: first.place,
            value: first.value,
            is_one: first.is_one && same(names.items(), value, first.value),
        },
    }
}

fn note<'o>(
    names: &Names<'_>,
    firsts: &mut IndexMap<&'o [u8], FirstOutput<'o>>,
    place: usize,
    output: &'o Heading<'o>,
) -> Result<(), NoMemory>
    ensures { OnOk result (spec.Notes names.now.items place (heading output.now) firsts.old.entries firsts.new.entries) }
{
    let name = output.name();
    let first = with_output(names, firsts.get(name), place, output.value());
    firsts.insert(name, first)?;
    Ok(())
}

// The output columns by their names.
fn first_outputs<'o>(
    alloc: Global,
    names: &Names<'_>,
    outputs: &'o [Heading<'o>],
) -> Result<IndexMap<&'o [u8], FirstOutput<'o>>, NoMemory>
    ensures { IfOk result (λ firsts. spec.AreFirsts names.now.items (map heading outputs.now) firsts.entries) }
{
    let mut firsts = IndexMap::new(alloc);
    for (place, output) in outputs.iter().enumerate() {
        note(names, &mut firsts, place, output)?;
    }
    Ok(firsts)
}

fn one_of(place: usize, is_one: bool) -> Named
    ensures { result ≡ keys.one_of place is_one }
{
    if is_one {
        Named::One(place)
    } else {
        Named::Several
    }
}

fn found(first: Option<&FirstOutput<'_>>) -> Named
    ensures { result ≡ spec.found (spec.seen (option_copied first.entry)) }
{
    match first {
        None => Named::Missing,
        Some(first) => one_of(first.place, first.is_one),
    }
}

/// What a key of ORDER BY may name: an output column, which is found in the time of one look-up, or a column
/// of the items.
#[derive(Drop)]
pub struct KeyNames<'o> {
    names: &'o Names<'o>,
    outputs: &'o [Heading<'o>],
    firsts: IndexMap<&'o [u8], FirstOutput<'o>>,
    ghost are_firsts: { spec.AreFirsts names.now.items (map heading outputs.now) firsts.entries },
}

impl<'o> KeyNames<'o> {
    /// The columns that the names say, and the output columns.
    pub(crate) fn new(
        alloc: Global,
        names: &'o Names<'o>,
        outputs: &'o [Heading<'o>],
    ) -> Result<Self, NoMemory>
        ensures scope { IfOk result (λ k. k.names.now ≡ names.now) }
        ensures outputs { IfOk result (λ k. map heading k.outputs.now ≡ map heading outputs.now) }
    {
        let firsts = first_outputs(alloc, names, outputs)?;
        Ok(KeyNames {
            names,
            outputs,
            firsts,
        })
    }

    pub(crate) fn names(&self) -> &'o Names<'o>
        ensures { result.now ≡ self.now.names.now }
    {
        self.names
    }

    /// How many output columns there are.
    pub(crate) fn count(&self) -> usize
        ensures { result ≡ length (map heading self.now.outputs.now) }
    {
        self.outputs.len()
    }

    pub(crate) fn output_named(&self, name: &[u8]) -> Named
        ensures { result ≡ keys.output_named self.now.names.now.items name.now 0 (map heading self.now.outputs.now) }
    {
        found(self.firsts.get(name))
    }
}
