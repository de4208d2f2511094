ghost use Rattle.std.specs.Prelude.{◌≡◌};
ghost use Rattle.pg_values.specs.Refusals.{IsAnswer};
ghost use Rattle.refusals.specs.Refusals as refusals;
ghost use Rattle.expression_binder.specs.Kinds as kinds;
ghost use Rattle.expression_binder.specs.Firsts.{or_first, unless};

use crate::signs::sign;
use crate::{Allowed, Given, Typed};
use pg_values::{Kind, Refusal};
use refusals::{left_out, no_operator, wrong_count, wrong_kind};
use sql_ast::Operator;
use std::alloc::Global;

pub(crate) fn fixed(given: Given) -> Typed
    ensures { result ≡ kinds.fixed given }
{
    Typed {
        given,
        varies: false,
    }
}

pub(crate) fn number_kind(n: u64) -> Kind
    ensures { result ≡ kinds.number_kind n }
{
    if n <= 2_147_483_647 {
        Kind::Int4
    } else {
        Kind::Int8
    }
}

/// An operator of arithmetic, and none of comparison.
pub fn is_arithmetic(operator: Operator) -> bool
    ensures { result ≡ kinds.is_arithmetic operator }
{
    match operator {
        Operator::Add => true,
        Operator::Subtract => true,
        Operator::Multiply => true,
        Operator::Divide => true,
        Operator::Remainder => true,
        Operator::Equal => false,
        Operator::NotEqual => false,
        Operator::Less => false,
        Operator::LessEqual => false,
        Operator::Greater => false,
        Operator::GreaterEqual => false,
    }
}

fn number_made(left: Kind, right: Kind) -> Option<Kind>
    ensures { result ≡ kinds.number_made left right }
{
    match (left, right) {
        (Kind::Int4, Kind::Int4) => Some(Kind::Int4),
        (Kind::Int4, Kind::Int8) => Some(Kind::Int8),
        (Kind::Int8, Kind::Int4) => Some(Kind::Int8),
        (Kind::Int8, Kind::Int8) => Some(Kind::Int8),
        _ => None,
    }
}

fn sum_made(left: Kind, right: Kind) -> Option<Kind>
    ensures { result ≡ kinds.sum_made left right }
{
    match (left, right) {
        (Kind::Day, Kind::Int4) => Some(Kind::Day),
        (Kind::Int4, Kind::Day) => Some(Kind::Day),
        _ => number_made(left, right),
    }
}

fn difference_made(left: Kind, right: Kind) -> Option<Kind>
    ensures { result ≡ kinds.difference_made left right }
{
    match (left, right) {
        (Kind::Day, Kind::Int4) => Some(Kind::Day),
        (Kind::Day, Kind::Day) => Some(Kind::Int4),
        _ => number_made(left, right),
    }
}

/// What the operator makes of the two kinds, where it is listed for them.
pub fn kind_made(operator: Operator, left: Kind, right: Kind) -> Option<Kind>
    ensures { result ≡ kinds.kind_made operator left right }
{
    match operator {
        Operator::Add => sum_made(left, right),
        Operator::Subtract => difference_made(left, right),
        Operator::Multiply => number_made(left, right),
        Operator::Divide => number_made(left, right),
        Operator::Remainder => number_made(left, right),
        _ => None,
    }
}

fn literal_beside(operator: Operator, kind: Kind) -> Kind
    ensures { result ≡ kinds.literal_beside operator kind }
{
    if kind_made(operator, kind, kind).is_some() {
        kind
    } else {
        Kind::Text
    }
}

fn null_beside(operator: Operator, kind: Kind) -> Kind
    ensures { result ≡ kinds.null_beside operator kind }
{
    match (operator, kind) {
        (Operator::Add, Kind::Day) => Kind::Int4,
        _ => literal_beside(operator, kind),
    }
}

/// The kind of an operand of arithmetic, beside the other one.
pub(crate) fn kind_beside(operator: Operator, other: Given, own: Given) -> Kind
    ensures { result ≡ kinds.kind_beside operator other own }
{
    match (other, own) {
        (_, Given::Of(kind)) => kind,
        (Given::Of(kind), Given::Quoted) => literal_beside(operator, kind),
        (Given::Of(kind), Given::Nothing) => null_beside(operator, kind),
        _ => Kind::Text,
    }
}

/// The kind of an operand with no other one beside it: that of a literal with no place is text.
pub fn kind_alone(given: Given) -> Kind
    ensures { result ≡ kinds.kind_alone given }
{
    match given {
        Given::Of(kind) => kind,
        Given::Quoted => Kind::Text,
        Given::Nothing => Kind::Text,
    }
}

/// The kind of one side of a comparison.
pub(crate) fn side_kind(other: Given, own: Given) -> Kind
    ensures { result ≡ kinds.side_kind other own }
{
    match own {
        Given::Of(kind) => kind,
        Given::Quoted => kind_alone(other),
        Given::Nothing => kind_alone(other),
    }
}

fn are_alike(left: Kind, right: Kind) -> bool
    ensures { result ≡ kinds.are_alike left right }
{
    match (left, right) {
        (Kind::Int4, Kind::Int4) => true,
        (Kind::Int4, Kind::Int8) => true,
        (Kind::Int8, Kind::Int4) => true,
        (Kind::Int8, Kind::Int8) => true,
        (Kind::Text, Kind::Text) => true,
        (Kind::Day, Kind::Day) => true,
        (Kind::Truth, Kind::Truth) => true,
        _ => false,
    }
}

fn given_by(kind: Option<Kind>) -> Given
    ensures { result ≡ kinds.given_by kind }
{
    match kind {
        None => Given::Nothing,
        Some(kind) => Given::Of(kind),
    }
}

/// What an operator makes of two operands.
pub fn given_made(operator: Operator, left: Given, right: Given) -> Given
    ensures { result ≡ kinds.given_made operator left right }
{
    let x = kind_beside(operator, right, left);
    let y = kind_beside(operator, left, right);
    given_by(kind_made(operator, x, y))
}

/// What an operator makes of its sides.
pub(crate) fn joined(operator: Operator, left: Typed, right: Typed) -> Typed
    ensures { result ≡ kinds.joined operator left right }
{
    Typed {
        given: given_made(operator, left.given, right.given),
        varies: left.varies || right.varies,
    }
}

fn check_arithmetic(
    alloc: Global,
    operator: Operator,
    left: Given,
    right: Given,
) -> Result<(), Refusal>
    ensures { IsAnswer result (or_first (kinds.arithmetic_faults operator left right) tt) }
{
    let x = kind_beside(operator, right, left);
    let y = kind_beside(operator, left, right);
    if kind_made(operator, x, y).is_some() {
        return Ok(());
    }
    Err(Refusal::Sql(no_operator(alloc, x, sign(operator), y)?))
}

/// The two operands may be joined to one operand.
pub(crate) fn check_join(
    alloc: Global,
    allowed: Allowed,
    operator: Operator,
    left: Typed,
    right: Typed,
) -> Result<(), Refusal>
    ensures { IsAnswer result (or_first (kinds.join_faults allowed operator left right) tt) }
{
    if !is_arithmetic(operator) || ((left.varies || right.varies) && !allowed.arithmetic) {
        return Err(Refusal::Sql(left_out(alloc, sign(operator))?));
    }
    check_arithmetic(alloc, operator, left.given, right.given)
}

/// What an operator makes of its sides, where they may be joined.
pub fn check_joined(
    alloc: Global,
    allowed: Allowed,
    operator: Operator,
    left: Typed,
    right: Typed,
) -> Result<Typed, Refusal>
    ensures { IsAnswer result (or_first (kinds.join_faults allowed operator left right) (kinds.joined operator left right)) }
{
    check_join(alloc, allowed, operator, left, right)?;
    Ok(joined(operator, left, right))
}

/// The two operands may be compared.
#[tactic(auto, unfolding(crate::specs::Kinds::comparison_faults))]
pub(crate) fn check_comparison(
    alloc: Global,
    operator: Operator,
    left: Given,
    right: Given,
) -> Result<(), Refusal>
    ensures { IsAnswer result (or_first (kinds.comparison_faults operator left right) tt) }
{
    let x = side_kind(right, left);
    let y = side_kind(left, right);
    if are_alike(x, y) {
        return Ok(());
    }
    Err(Refusal::Sql(no_operator(alloc, x, sign(operator), y)?))
}

/// The operand is a condition by itself.
pub(crate) fn check_truth(alloc: Global, given: Given) -> Result<(), Refusal>
    ensures { IsAnswer result (or_first (kinds.truth_faults given) tt) }
{
    match given {
        Given::Of(Kind::Truth) => Ok(()),
        _ => Err(Refusal::Sql(wrong_kind(alloc, kind_alone(given), Kind::Truth)?)),
    }
}

fn check_kind(alloc: Global, kind: Kind, own: Kind) -> Result<(), Refusal>
    ensures { IsAnswer result (or_first (unless (kinds.are_alike own kind) (refusals.wrong_kind own kind)) tt) }
{
    if are_alike(own, kind) {
        return Ok(());
    }
    Err(Refusal::Sql(wrong_kind(alloc, own, kind)?))
}

/// A column of the kind may get the operand: refused with 42804.
pub fn check_assigned(alloc: Global, kind: Kind, given: Given) -> Result<(), Refusal>
    ensures { IsAnswer result (or_first (kinds.assigned_faults kind given) tt) }
{
    match given {
        Given::Of(own) => check_kind(alloc, kind, own),
        Given::Quoted => Ok(()),
        Given::Nothing => Ok(()),
    }
}

/// The operand may count rows, as that of LIMIT: refused with 42804.
pub fn check_counting(alloc: Global, given: Given) -> Result<(), Refusal>
    ensures { IsAnswer result (or_first (kinds.counting_faults given) tt) }
{
    match given {
        Given::Of(own) => check_kind(alloc, Kind::Int8, own),
        Given::Quoted => Ok(()),
        Given::Nothing => Ok(()),
    }
}

/// As many values as are wanted: refused with 42601.
pub fn check_count(alloc: Global, given: usize, wanted: usize) -> Result<(), Refusal>
    ensures { IsAnswer result (or_first (kinds.count_faults given wanted) tt) }
{
    if given == wanted {
        return Ok(());
    }
    Err(Refusal::Sql(wrong_count(alloc, given as u64, wanted as u64)?))
}
