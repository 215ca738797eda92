//! The one total order of all values, on values that may be keys.

ghost use Rattle.std.specs.Prelude.{◌≡◌};
ghost use Rattle.std.specs.Ordering.{int_cmp};
ghost use Rattle.std.specs.Cmp.Lexicographic.{slice_cmp};
ghost use Rattle.weld_data.specs.Value.{number, values};
ghost use Rattle.weld_data.specs.View.{view_val, view_column};
ghost use Rattle.weld_data.specs.Order.{HaveOneKind};
ghost use Rattle.weld_builders.specs.ValueOrder.{value_cmp, kind_word};
ghost use Rattle.weld_data.specs.Order.{IsKey, IsKeyField, AreKeyFields};

use std::cmp::Ordering;
use weld_data::{Column, Kind, Num, Val, Vals};

/// How the first value stands to the second in the one total order of all values, by their kinds and
/// then by their numbers, lists and structs item by item. Both may be keys; they need not be of one
/// type. It takes no memory.
pub fn compare_values(a: &Val, b: &Val) -> Ordering
    requires left { IsKey (view_val a.now) }
    requires right { IsKey (view_val b.now) }
    ensures { result ≡ value_cmp (view_val a.now) (view_val b.now) }
{
    match a {
        Val::Num(x) => match b {
            Val::Num(y) => compare_numbers(*x, *y),
            _ => Ordering::Less,
        },
        Val::List(x) => match b {
            Val::Num(_) => Ordering::Greater,
            Val::List(y) => compare_columns(x, y),
            _ => Ordering::Less,
        },
        Val::Struct(x) => match b {
            Val::Struct(y) => compare_fields(x, y),
            _ => Ordering::Greater,
        },
        Val::Dict(_) => unreachable!(),
    }
}

/// The same of two fields of keys.
fn compare_parts(a: &Val, b: &Val) -> Ordering
    requires left { IsKeyField (view_val a.now) }
    requires right { IsKeyField (view_val b.now) }
    ensures { result ≡ value_cmp (view_val a.now) (view_val b.now) }
{
    match a {
        Val::Num(x) => match b {
            Val::Num(y) => compare_numbers(*x, *y),
            _ => Ordering::Less,
        },
        Val::List(x) => match b {
            Val::List(y) => compare_columns(x, y),
            _ => Ordering::Greater,
        },
        _ => unreachable!(),
    }
}

/// Numbers: their kinds, then themselves.
fn compare_numbers(a: Num, b: Num) -> Ordering
    ensures { result ≡ value_cmp (number a.kind a.value) (number b.kind b.value) }
{
    word_of(a.kind)
        .cmp(&word_of(b.kind))
        .then(a.value.cmp(&b.value))
}

/// The place of a kind in the order.
fn word_of(kind: Kind) -> i8
    ensures { result ≡ kind_word kind }
{
    match kind {
        Kind::Bool => 0,
        Kind::I8 => 1,
        Kind::I16 => 2,
        Kind::I32 => 3,
        Kind::I64 => 4,
        Kind::U8 => 5,
        Kind::U16 => 6,
        Kind::U32 => 7,
        Kind::U64 => 8,
    }
}

/// Lists of numbers: the first that don't tie decide, and else the lengths do.
fn compare_columns(a: &Column, b: &Column) -> Ordering
    requires left { HaveOneKind (values (view_column a.now)) }
    requires right { HaveOneKind (values (view_column b.now)) }
    ensures { result ≡ slice_cmp value_cmp (view_column a.now) (view_column b.now) }
{
    // Arrays of one kind are compared without a look at the kind of each number.
    match (a, b) {
        (Column::Bool(x), Column::Bool(y)) => x.as_slice().cmp(&y.as_slice()),
        (Column::I8(x), Column::I8(y)) => x.as_slice().cmp(&y.as_slice()),
        (Column::I16(x), Column::I16(y)) => x.as_slice().cmp(&y.as_slice()),
        (Column::I32(x), Column::I32(y)) => x.as_slice().cmp(&y.as_slice()),
        (Column::I64(x), Column::I64(y)) => x.as_slice().cmp(&y.as_slice()),
        (Column::U8(x), Column::U8(y)) => x.as_slice().cmp(&y.as_slice()),
        (Column::U16(x), Column::U16(y)) => x.as_slice().cmp(&y.as_slice()),
        (Column::U32(x), Column::U32(y)) => x.as_slice().cmp(&y.as_slice()),
        (Column::U64(x), Column::U64(y)) => x.as_slice().cmp(&y.as_slice()),
        _ => compare_elements(a, b),
    }
}

/// The same, where the lists may be kept in different ways.
fn compare_elements(a: &Column, b: &Column) -> Ordering
    requires left { HaveOneKind (values (view_column a.now)) }
    requires right { HaveOneKind (values (view_column b.now)) }
    ensures { result ≡ slice_cmp value_cmp (view_column a.now) (view_column b.now) }
{
    for i in 0..a.len().min(b.len()) {
        match compare_numbers(a.number_at(i), b.number_at(i)) {
            Ordering::Equal => {}
            unequal => return unequal,
        }
    }
    a.len().cmp(&b.len())
}

/// Structs by their fields, in the same way.
fn compare_fields(a: &Vals, b: &Vals) -> Ordering
    requires left { AreKeyFields (values a.now) }
    requires right { AreKeyFields (values b.now) }
    ensures { result ≡ slice_cmp value_cmp a.now b.now }
{
    for i in 0..a.len().min(b.len()) {
        match compare_parts(a.at(i), b.at(i)) {
            Ordering::Equal => {}
            unequal => return unequal,
        }
    }
    a.len().cmp(&b.len())
}
