ghost use Rattle.std.specs.Prelude.{◌≡◌, IfOk, map};
ghost use Rattle.weld_data.specs.declared.kind.Kind.TheVariants as kinds;
ghost use Rattle.weld_data.specs.Value.{number};
ghost use Rattle.weld_data.specs.View.{view_column};

use crate::dictionaries::build;
use std::alloc::{AllocError, Global};
use std::cmp::Ordering;
use std::test::Fail;
use weld_data::{Column, I8s, Items, Num, Val, Vals, compare_keys};

/// The same list, kept value by value.
fn nested(alloc: Global, items: &[i8]) -> Result<Vals, AllocError>
    ensures { IfOk result (λ list. list ≡ map (number kinds.I8) items.now) }
{
    let mut list = Vals::new(alloc);
    for x in items {
        list.push(Val::Num(Num::of_i8(*x)))?;
    }
    Ok(list)
}

/// The same list as a column, typed or nested.
fn column_of(alloc: Global, items: &[i8], typed: bool) -> Result<Column, AllocError>
    ensures { IfOk result (λ column. view_column column ≡ map (number kinds.I8) items.now) }
{
    if typed {
        Ok(Column::I8(I8s::copy_of(alloc, items)?))
    } else {
        Ok(Column::Nest(nested(alloc, items)?))
    }
}

/// The order of two lists as keys, the second one kept typed or nested.
fn order_of(alloc: Global, a: &[i8], b: &[i8], typed: bool) -> Result<Ordering, AllocError> {
    let a = column_of(alloc, a, true)?;
    let b = column_of(alloc, b, typed)?;
    Ok(compare_keys(&Val::List(a), &Val::List(b)))
}

/// The order of two structs of a number and a truth value.
fn order_of_structs(
    alloc: Global,
    a: &(i64, bool),
    b: &(i64, bool),
) -> Result<Ordering, AllocError> {
    let mut x = Vals::new(alloc);
    x.push(Val::Num(Num::of_i64(a.0)))?;
    x.push(Val::Num(Num::of_bool(a.1)))?;
    let mut y = Vals::new(alloc);
    y.push(Val::Num(Num::of_i64(b.0)))?;
    y.push(Val::Num(Num::of_bool(b.1)))?;
    Ok(compare_keys(&Val::Struct(x), &Val::Struct(y)))
}

static LISTS: [(&[i8], &[i8], Ordering); 6] = [
    (&[], &[], Ordering::Equal),
    (&[], &[-128], Ordering::Less),
    (&[97], &[97, 98], Ordering::Less),
    (&[98], &[97, 98], Ordering::Greater),
    (&[97, 98, 1], &[97, 98, 2], Ordering::Less),
    (&[-1, 5], &[1, 0], Ordering::Less),
];

static STRUCTS: [((i64, bool), (i64, bool), Ordering); 4] = [
    ((1, true), (1, true), Ordering::Equal),
    ((1, false), (1, true), Ordering::Less),
    ((2, false), (1, true), Ordering::Greater),
    (
        (-9223372036854775808, true),
        (9223372036854775807, false),
        Ordering::Less,
    ),
];

#[test]
fn keys_are_ordered(rt: HostRuntime) -> Result<(), Fail> {
    let alloc = rt.alloc();
    for (a, b, expected) in &LISTS {
        assert_eq!(rt; order_of(alloc, a, b, true)?, *expected);
        assert_eq!(rt; order_of(alloc, a, b, false)?, *expected);
    }
    for (a, b, expected) in &STRUCTS {
        assert_eq!(rt; order_of_structs(alloc, a, b)?, *expected);
    }
    Ok(())
}

/// The column of each number, one for each way to keep a list.
fn column(alloc: Global, number: u8) -> Result<Column, AllocError> {
    match number {
        0 => Ok(Column::Bool(Items::copy_of(alloc, &[false, true])?)),
        1 => Ok(Column::I8(I8s::copy_of(alloc, &[0, 1])?)),
        2 => Ok(Column::I16(Items::copy_of(alloc, &[0, 1])?)),
        3 => Ok(Column::I32(Items::copy_of(alloc, &[0, 1])?)),
        4 => Ok(Column::I64(Items::copy_of(alloc, &[0, 1])?)),
        5 => Ok(Column::U8(Items::copy_of(alloc, &[0, 1])?)),
        6 => Ok(Column::U16(Items::copy_of(alloc, &[0, 1])?)),
        7 => Ok(Column::U32(Items::copy_of(alloc, &[0, 1])?)),
        8 => Ok(Column::U64(Items::copy_of(alloc, &[0, 1])?)),
        _ => Ok(Column::Nest(nested(alloc, &[0, 1])?)),
    }
}

/// The value of each number: a number, a struct, a dictionary, lists.
fn value(alloc: Global, number: u8) -> Result<Val, AllocError> {
    match number {
        0 => Ok(Val::Num(Num::of_i32(-7))),
        1 => Ok(Val::Struct(nested(alloc, &[3, 4])?)),
        2 => Ok(Val::Dict(build(alloc, 3)?)),
        _ => Ok(Val::List(column(alloc, number - 3)?)),
    }
}

#[test]
fn each_form_is_copied(rt: HostRuntime) -> Result<(), Fail> {
    let alloc = rt.alloc();
    for number in 0..13 {
        let value = value(alloc, number)?;
        let copy = value.copy(alloc)?;
        assert_eq!(rt;
            format!(in alloc; "{copy:?}")?,
            format!(in alloc; "{value:?}")?
        );
    }
    Ok(())
}

#[test]
fn columns_show_their_elements(rt: HostRuntime) -> Result<(), Fail> {
    let alloc = rt.alloc();
    for number in 0..10 {
        let column = column(alloc, number)?;
        assert_eq!(rt; (column.len(), column.is_empty()), (2, false));
        let Val::Num(last) = column.copy_at(alloc, 1)? else {
            return Err(Fail::new("an element is a number"));
        };
        assert_eq!(rt; last.value, 1);
    }
    Ok(())
}
