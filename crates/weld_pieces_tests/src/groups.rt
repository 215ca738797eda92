//! Groups: three pieces joined both ways come to one dictionary, which can be finished.

ghost use Rattle.std.specs.Prelude.{◌≡◌, Some, IfOk};
ghost use Rattle.weld_data.specs.declared.kind.Kind.TheVariants as kinds;
ghost use Rattle.weld_pieces.specs.Keyed.{KeysAreKept};

use std::alloc::{AllocError, Global};
use std::test::Fail;
use weld_data::{Column, Kind, Num, Pairs, Val};
use weld_groups::{GroupsPart, laws};

/// Keys and items of three pieces.
static PIECES: [&[(i64, i64)]; 3] = [
    &[(2, 10), (1, 20)],
    &[(2, 30)],
    &[(-1, 40), (1, 50), (2, 60)],
];

/// The groups of all.
static GROUPS: [(i64, &[i64]); 3] = [(-1, &[40]), (1, &[20, 50]), (2, &[10, 30, 60])];

/// The part of one piece.
fn groups_of(alloc: Global, pairs: &[(i64, i64)]) -> Result<GroupsPart, AllocError>
    ensures key { IfOk result (λ g. g.key ≡ Some kinds.I64) }
    ensures items { IfOk result (λ g. g.items ≡ Some kinds.I64) }
    ensures kept { IfOk result (λ g. KeysAreKept (Some kinds.I64) g.groups) }
{
    laws::kept_keys_stay();
    let mut part = GroupsPart::empty(alloc, Some(Kind::I64), Some(Kind::I64));
    for (key, x) in pairs {
        part.push_at_number(Kind::I64, *key, Val::Num(Num::of_i64(*x)))?;
    }
    Ok(part)
}

/// The join of two parts.
fn joined(first: GroupsPart, later: GroupsPart) -> Result<GroupsPart, AllocError>
    requires first_key { first.key ≡ Some kinds.I64 }
    requires first_items { first.items ≡ Some kinds.I64 }
    requires first_kept { KeysAreKept (Some kinds.I64) first.groups }
    requires later_key { later.key ≡ Some kinds.I64 }
    requires later_items { later.items ≡ Some kinds.I64 }
    requires later_kept { KeysAreKept (Some kinds.I64) later.groups }
    ensures key { IfOk result (λ g. g.key ≡ Some kinds.I64) }
    ensures items { IfOk result (λ g. g.items ≡ Some kinds.I64) }
    ensures kept { IfOk result (λ g. KeysAreKept (Some kinds.I64) g.groups) }
{
    laws::kept_keys_stay();
    let mut part = first;
    match part.append(later) {
        Ok(()) => Ok(part),
        Err(e) => Err(e),
    }
}

/// The dictionary.
fn finished(alloc: Global, part: GroupsPart) -> Result<Pairs, AllocError>
    requires key { part.key ≡ Some kinds.I64 }
    requires kept { KeysAreKept (Some kinds.I64) part.groups }
{
    laws::number_keys_have_one_type();
    part.into_pairs(alloc)
}

/// Whether a value is the list of these numbers.
fn is_list(value: &Val, numbers: &[i64]) -> bool {
    match value {
        Val::List(Column::I64(items)) => items.as_slice() == numbers,
        _ => false,
    }
}

/// Whether a value is this number.
fn is_number(value: &Val, number: i64) -> bool {
    match value {
        Val::Num(n) => n.value == i128::from(number),
        _ => false,
    }
}

#[test]
fn groups_join_both_ways(rt: HostRuntime) -> Result<(), Fail> {
    let alloc = rt.alloc();
    let left = joined(groups_of(alloc, PIECES[0])?, groups_of(alloc, PIECES[1])?)?;
    let left = joined(left, groups_of(alloc, PIECES[2])?)?;
    let right = joined(groups_of(alloc, PIECES[1])?, groups_of(alloc, PIECES[2])?)?;
    let right = joined(groups_of(alloc, PIECES[0])?, right)?;
    let left = finished(alloc, left)?;
    let right = finished(alloc, right)?;
    assert_eq!(rt; left.len(), GROUPS.len());
    assert_eq!(rt; right.len(), GROUPS.len());
    for (pair, (key, items)) in left.as_slice().iter().zip(&GROUPS) {
        assert!(rt; is_number(&pair.key, *key) && is_list(&pair.value, items));
    }
    for (pair, (key, items)) in right.as_slice().iter().zip(&GROUPS) {
        assert!(rt; is_number(&pair.key, *key) && is_list(&pair.value, items));
    }
    Ok(())
}
