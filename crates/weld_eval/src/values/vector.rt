//! Vectors made from vectors and strings.

ghost use Rattle.std.specs.Prelude.{◌≡◌, ◌+◌, ◌*◌, ◌<◌, ◌≤◌, ◌++◌, ℕ, List, length as length_of, map, take, drop, IfOk, OnOk};
ghost use Rattle.weld_data.specs.declared.kind.Kind.TheVariants as kinds;
ghost use Rattle.weld_data.specs.Kind.{InRange};
ghost use Rattle.weld_data.specs.Value.{list, values};
ghost use Rattle.weld_data.specs.View.{view_val, view_column};
ghost use Rattle.weld_meaning.specs.Evaluation.{byte_value, sliced, strided_of, picked};
ghost use Rattle.weld_eval.specs.Answers.{Answers};
ghost use Rattle.weld_eval.specs.Bounds.{NumberCount, CountAnswer, BoundsAnswer, StepsAnswer, StrideAnswer};
ghost use Rattle.weld_eval.specs.Fits.{IsList, IsPlaceNumber};

use std::alloc::{AllocError, Global};
use weld_data::{Column, I8s, Items, Stop, Structs, Text, Val, Vals};

/// The bytes of a string as a vector of numbers of kind i8.
pub fn bytes_of(alloc: Global, text: &Text) -> Result<Val, AllocError>
    ensures { IfOk result (λ v. view_val v ≡ list (values (map byte_value text.now))) }
{
    let mut items = I8s::with_capacity(alloc, text.len())?;
    for byte in text.as_slice() {
        items.push(alloc, byte.cast_signed())?;
    }
    Ok(Val::List(Column::I8(items)))
}

/// So many elements of a vector from a place on. It faults where they aren't all there.
#[tactic(auto, using(crate::proofs::VectorLemmas::slice_there, crate::proofs::VectorLemmas::slice_faults))]
pub fn part_of(alloc: Global, v: &Val, start: &Val, count: &Val) -> Result<Val, Stop>
    requires vector { IsList (view_val v.now) }
    requires start { IsPlaceNumber (view_val start.now) }
    requires count { IsPlaceNumber (view_val count.now) }
    ensures { Answers view_val result (sliced (view_val v.now) (view_val start.now)
        (view_val count.now)) }
{
    match v {
        Val::List(column) => match bounds_of(start, count, column.len()) {
            Ok((start, count)) => match elements_from(alloc, column, start, count) {
                Ok(part) => Ok(Val::List(part)),
                Err(_) => Err(Stop::Memory),
            },
            Err(stop) => Err(stop),
        },
        _ => unreachable!(),
    }
}

/// The place and the count, where so many elements from the place on are all there. It takes no memory.
#[tactic(auto, using(crate::proofs::VectorLemmas::bounds_start, crate::proofs::VectorLemmas::bounds_count, crate::proofs::VectorLemmas::bounds_beyond))]
fn bounds_of(start: &Val, count: &Val, length: usize) -> Result<(usize, usize), Stop>
    requires start { IsPlaceNumber (view_val start.now) }
    requires count { IsPlaceNumber (view_val count.now) }
    ensures { BoundsAnswer result (view_val start.now) (view_val count.now) length }
{
    let Some(first) = count_of(start) else {
        return Err(Stop::Fault);
    };
    let Some(several) = count_of(count) else {
        return Err(Stop::Fault);
    };
    if first + several > length as u64 {
        return Err(Stop::Fault);
    }
    Ok((first as usize, several as usize))
}

/// The elements of a column from a place on, copied.
fn elements_from(
    alloc: Global,
    column: &Column,
    start: usize,
    count: usize,
) -> Result<Column, AllocError>
    requires { start + count ≤ length_of (view_column column.now) }
    ensures { IfOk result (λ part. view_column part ≡ take count
        (drop start (view_column column.now))) }
{
    match column {
        Column::Bool(items) => Ok(Column::Bool(items_from(alloc, items, start, count)?)),
        Column::I8(items) => Ok(Column::I8(i8s_from(alloc, items, start, count)?)),
        Column::I16(items) => Ok(Column::I16(items_from(alloc, items, start, count)?)),
        Column::I32(items) => Ok(Column::I32(items_from(alloc, items, start, count)?)),
        Column::I64(items) => Ok(Column::I64(items_from(alloc, items, start, count)?)),
        Column::U8(items) => Ok(Column::U8(items_from(alloc, items, start, count)?)),
        Column::U16(items) => Ok(Column::U16(items_from(alloc, items, start, count)?)),
        Column::U32(items) => Ok(Column::U32(items_from(alloc, items, start, count)?)),
        Column::U64(items) => Ok(Column::U64(items_from(alloc, items, start, count)?)),
        Column::Structs(items) => Ok(Column::Nest(structs_from(alloc, items, start, count)?)),
        Column::Nest(items) => Ok(Column::Nest(values_from(alloc, items, start, count)?)),
    }
}

/// The items from a place on, copied.
fn items_from<T: Copy>(
    alloc: Global,
    items: &Items<T>,
    start: usize,
    count: usize,
) -> Result<Items<T>, AllocError>
    requires { start + count ≤ length_of items.now }
    ensures { IfOk result (λ part. part ≡ take count (drop start items.now)) }
{
    Items::copy_of(alloc, &items.as_slice()[start..start + count])
}

/// The numbers of kind i8 from a place on, copied.
fn i8s_from(alloc: Global, items: &I8s, start: usize, count: usize) -> Result<I8s, AllocError>
    requires { start + count ≤ length_of items.now }
    ensures { IfOk result (λ part. part ≡ take count (drop start items.now)) }
{
    I8s::copy_of(alloc, &items.as_slice()[start..start + count])
}

/// The values from a place on, copied.
#[tactic(auto, using(crate::proofs::VectorLemmas::copied_one))]
fn values_from(alloc: Global, items: &Vals, start: usize, count: usize) -> Result<Vals, AllocError>
    requires { start + count ≤ length_of items.now }
    ensures { IfOk result (λ part. part ≡ take count (drop start items.now)) }
{
    let _length = items.len();
    let mut part = Vals::new(alloc);
    for place in 0..count {
        let copy = items.at(start + place).copy(alloc)?;
        part.push(copy)?;
    }
    Ok(part)
}

/// The structs of numbers from a place on, copied as values.
#[tactic(auto, using(crate::proofs::VectorLemmas::copied_one))]
fn structs_from(
    alloc: Global,
    items: &Structs,
    start: usize,
    count: usize,
) -> Result<Vals, AllocError>
    requires { start + count ≤ length_of items.now }
    ensures { IfOk result (λ part. part ≡ take count (drop start items.now)) }
{
    let _length = items.len();
    let mut part = Vals::new(alloc);
    for place in 0..count {
        let copy = items.copy_at(alloc, start + place)?;
        part.push(copy)?;
    }
    Ok(part)
}

/// The elements of a vector from a start below an end by a stride. It faults where the start isn't
/// between 0 and the end, the end isn't within the vector, the stride isn't at least 1, or it doesn't
/// divide the way.
#[tactic(auto, using(crate::proofs::VectorLemmas::stride_there, crate::proofs::VectorLemmas::stride_faults))]
pub fn strided_part(
    alloc: Global,
    v: &Val,
    start: &Val,
    end: &Val,
    stride: &Val,
) -> Result<Column, Stop>
    requires vector { IsList (view_val v.now) }
    requires start { IsPlaceNumber (view_val start.now) }
    requires end { IsPlaceNumber (view_val end.now) }
    requires stride { IsPlaceNumber (view_val stride.now) }
    ensures { Answers view_column result (strided_of (view_val v.now) (view_val start.now)
        (view_val end.now) (view_val stride.now)) }
{
    match v {
        Val::List(column) => match stride_of(start, end, stride, column.len()) {
            Ok((start, stride, count)) => match picked_elements(
                alloc, column, start, stride, count,
            ) {
                Ok(part) => Ok(Column::Nest(part)),
                Err(_) => Err(Stop::Memory),
            },
            Err(stop) => Err(stop),
        },
        _ => unreachable!(),
    }
}

/// The start, the stride and how many elements there are. It takes no memory.
#[tactic(auto, using(crate::proofs::VectorLemmas::stride_start, crate::proofs::VectorLemmas::stride_end, crate::proofs::VectorLemmas::stride_step, crate::proofs::VectorLemmas::stride_answer))]
fn stride_of(
    start: &Val,
    end: &Val,
    stride: &Val,
    length: usize,
) -> Result<(usize, usize, usize), Stop>
    requires start { IsPlaceNumber (view_val start.now) }
    requires end { IsPlaceNumber (view_val end.now) }
    requires stride { IsPlaceNumber (view_val stride.now) }
    ensures { StrideAnswer result (view_val start.now) (view_val end.now) (view_val stride.now)
        length }
{
    let Some(first) = count_of(start) else {
        return Err(Stop::Fault);
    };
    let Some(last) = count_of(end) else {
        return Err(Stop::Fault);
    };
    let Some(step) = count_of(stride) else {
        return Err(Stop::Fault);
    };
    steps_of(first, last, step, length)
}

/// The same of counts. It takes no memory.
#[tactic(auto, using(crate::proofs::VectorLemmas::stride_backwards, crate::proofs::VectorLemmas::stride_beyond, crate::proofs::VectorLemmas::stride_zero, crate::proofs::VectorLemmas::stride_uneven, crate::proofs::VectorLemmas::steps_there))]
fn steps_of(start: u64, end: u64, stride: u64, length: usize) -> Result<(usize, usize, usize), Stop>
    ensures { StepsAnswer result start end stride length }
{
    if start > end {
        return Err(Stop::Fault);
    }
    if end > length as u64 {
        return Err(Stop::Fault);
    }
    if stride == 0 {
        return Err(Stop::Fault);
    }
    if (end - start) % stride != 0 {
        return Err(Stop::Fault);
    }
    Ok((
        start as usize,
        stride as usize,
        ((end - start) / stride) as usize,
    ))
}

/// The elements at a place and at so many more, by a stride, copied.
fn picked_elements(
    alloc: Global,
    column: &Column,
    start: usize,
    stride: usize,
    count: usize,
) -> Result<Vals, AllocError>
    requires within { start + count * stride ≤ length_of (view_column column.now) }
    requires positive { 1 ≤ stride }
    ensures { IfOk result (λ part. part ≡ picked (view_column column.now) start stride count) }
{
    let _length = column.len();
    let mut part = Vals::new(alloc);
    let mut place = start;
    for _ in 0..count {
        part.push(column.copy_at(alloc, place)?)?;
        place += stride;
    }
    Ok(part)
}

/// The number of kind i64 that a value is, where it isn't negative. It takes no memory.
fn count_of(v: &Val) -> Option<u64>
    requires { IsPlaceNumber (view_val v.now) }
    ensures { CountAnswer result (view_val v.now) }
{
    match v {
        Val::Num(number) => count_of_number(number.value),
        _ => unreachable!(),
    }
}

/// The same of a number. It takes no memory.
fn count_of_number(x: i128) -> Option<u64>
    requires { InRange kinds.I64 x }
    ensures { NumberCount result x }
{
    if x < 0 { None } else { Some(x as u64) }
}
