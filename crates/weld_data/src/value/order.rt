//! The order of keys.

ghost use Rattle.weld_data.specs.Value.{values};
ghost use Rattle.weld_data.specs.View.{view_val, view_column};
ghost use Rattle.weld_data.specs.Order.{KeyStands, ListStands, SameKeyType, SameNumberKinds, SameFieldType, SameFieldTypes};

use super::{Column, Val, Vals};
use std::cmp::Ordering;

/// How two keys of one type stand to each other: numbers by size, false before true;
/// lists and structs lexicographically, a proper prefix first. It takes no memory.
pub fn compare_keys(a: &Val, b: &Val) -> Ordering
    requires { SameKeyType (view_val a.now) (view_val b.now) }
    ensures { KeyStands result (view_val a.now) (view_val b.now) }
{
    match (a, b) {
        (Val::Struct(x), Val::Struct(y)) => compare_structs(x, y),
        _ => compare_fields(a, b),
    }
}

/// The order of two structs by their fields, which are of one type one by one.
fn compare_structs(a: &Vals, b: &Vals) -> Ordering
    requires { SameFieldTypes (values a.now) (values b.now) }
    ensures { ListStands result a.now b.now }
{
    for i in 0..a.len() {
        match compare_fields(a.at(i), b.at(i)) {
            Ordering::Equal => {}
            unequal => return unequal,
        }
    }
    Ordering::Equal
}

/// The order of two key fields of one type: numbers by size, lists lexicographically.
fn compare_fields(a: &Val, b: &Val) -> Ordering
    requires { SameFieldType (view_val a.now) (view_val b.now) }
    ensures { KeyStands result (view_val a.now) (view_val b.now) }
{
    match (a, b) {
        (Val::Num(x), Val::Num(y)) => x.value.cmp(&y.value),
        (Val::List(x), Val::List(y)) => compare_columns(x, y),
        _ => unreachable!(),
    }
}

/// The order of two lists of numbers of one kind.
fn compare_columns(a: &Column, b: &Column) -> Ordering
    requires { SameNumberKinds (values (view_column a.now)) (values (view_column b.now)) }
    ensures { ListStands result (view_column a.now) (view_column b.now) }
{
    match (a, b) {
        (Column::Bool(x), Column::Bool(y)) => x.as_slice().cmp(&y.as_slice()),
        (Column::I8(x), Column::I8(y)) => x.as_slice().cmp(&y.as_slice()),
        (Column::I16(x), Column::I16(y)) => x.as_slice().cmp(&y.as_slice()),
        (Column::I32(x), Column::I32(y)) => x.as_slice().cmp(&y.as_slice()),
        (Column::I64(x), Column::I64(y)) => x.as_slice().cmp(&y.as_slice()),
        (Column::U8(x), Column::U8(y)) => x.as_slice().cmp(&y.as_slice()),
        (Column::U16(x), Column::U16(y)) => x.as_slice().cmp(&y.as_slice()),
        (Column::U32(x), Column::U32(y)) => x.as_slice().cmp(&y.as_slice()),
        (Column::U64(x), Column::U64(y)) => x.as_slice().cmp(&y.as_slice()),
        _ => compare_numbers(a, b),
    }
}

/// The same, where the lists may be kept in different ways.
fn compare_numbers(a: &Column, b: &Column) -> Ordering
    requires { SameNumberKinds (values (view_column a.now)) (values (view_column b.now)) }
    ensures { ListStands result (view_column a.now) (view_column b.now) }
{
    for i in 0..a.len().min(b.len()) {
        match a.number_at(i).value.cmp(&b.number_at(i).value) {
            Ordering::Equal => {}
            unequal => return unequal,
        }
    }
    a.len().cmp(&b.len())
}
