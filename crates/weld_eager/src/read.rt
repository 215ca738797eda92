//! Arguments as arrays of plain numbers and truths.

ghost use Rattle.std.specs.Prelude.{◌≡◌, pos, map, IfOk};
ghost use Rattle.std.specs.Ordering.{int_eq};
ghost use Rattle.weld_data.specs.Kind.{InRange};
ghost use Rattle.weld_data.specs.View.{view_val, view_column};
ghost use Rattle.weld_tree.specs.TypeTree.{scalar, vec};
ghost use Rattle.weld_tree.specs.HasValue.{HasValue};
ghost use Rattle.weld_builders.specs.Range.{AllInRange};
ghost use Rattle.weld_calls.specs.Lists.{number_in, numbers as numbers_in, truth_in, truths as truths_in};
ghost use Rattle.weld_eager.specs.Reading.{AreNumbers, IsNumberVector};

use std::alloc::{AllocError, Global};
use weld_data::{Column, Kind, Num, Val};

/// The numbers of a vector of numbers, false being 0 and true 1.
#[tactic(auto, using(crate::proofs::Columns::listed))]
pub fn numbers_of(alloc: Global, v: &Val) -> Result<Vec<i128>, AllocError>
    requires { IsNumberVector (view_val v.now) }
    ensures { IfOk result (λ xs. xs.items ≡ numbers_in (view_val v.now)) }
{
    match v {
        Val::List(column) => column_numbers(alloc, column),
        _ => unreachable!(),
    }
}

/// The numbers of a vector of numbers of a kind, each in its range.
#[tactic(auto, using(crate::proofs::Columns::vector_in_range))]
pub fn numbers_as(alloc: Global, kind: Kind, v: &Val) -> Result<Vec<i128>, AllocError>
    requires { HasValue (vec (scalar kind)) (view_val v.now) }
    ensures value { IfOk result (λ xs. xs.items ≡ numbers_in (view_val v.now)) }
    ensures in_range { IfOk result (λ xs. AllInRange kind xs.items) }
{
    let numbers = numbers_of(alloc, v)?;
    Ok(numbers)
}

/// The number that a value is, false being 0 and true 1. It takes no memory.
pub fn number_of(kind: Kind, v: &Val) -> i128
    requires { HasValue (scalar kind) (view_val v.now) }
    ensures value { result ≡ number_in (view_val v.now) }
    ensures in_range { InRange kind result }
{
    match v {
        Val::Num(number) => number.value,
        _ => unreachable!(),
    }
}

/// The same of a column.
fn column_numbers(alloc: Global, column: &Column) -> Result<Vec<i128>, AllocError>
    requires { AreNumbers (view_column column.now) }
    ensures { IfOk result (λ xs. xs.items ≡ map number_in (view_column column.now)) }
{
    let count = column.len();
    let mut numbers = Vec::with_capacity(alloc, count)?;
    for place in 0..count {
        numbers.push(column.number_at(place).value)?;
    }
    Ok(numbers)
}

/// The truths of a vector of truth values.
#[tactic(auto, using(crate::proofs::Columns::listed))]
pub fn truths_of(alloc: Global, v: &Val) -> Result<Vec<bool>, AllocError>
    requires { IsNumberVector (view_val v.now) }
    ensures { IfOk result (λ bs. bs.items ≡ truths_in (view_val v.now)) }
{
    match v {
        Val::List(column) => column_truths(alloc, column),
        _ => unreachable!(),
    }
}

/// The same of a column.
fn column_truths(alloc: Global, column: &Column) -> Result<Vec<bool>, AllocError>
    requires { AreNumbers (view_column column.now) }
    ensures { IfOk result (λ bs. bs.items ≡ map truth_in (view_column column.now)) }
{
    let count = column.len();
    let mut truths = Vec::with_capacity(alloc, count)?;
    for place in 0..count {
        truths.push(is_true(column.number_at(place)))?;
    }
    Ok(truths)
}

/// Whether a number is 1, as true is.
fn is_true(number: Num) -> bool
    ensures { result ≡ int_eq number.value (pos 1) }
{
    number.value == 1
}
