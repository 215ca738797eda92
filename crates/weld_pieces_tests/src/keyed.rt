//! Numbers by keys: three pieces joined both ways come to one dictionary, which can be finished.

ghost use Rattle.std.specs.Prelude.{◌≡◌, Some, IfOk, OnOk};
ghost use Rattle.weld_data.specs.declared.kind.Kind.TheVariants as kinds;
ghost use Rattle.weld_pieces.specs.Keyed.{KeysAreKept};

use std::alloc::{AllocError, Global};
use std::test::Fail;
use weld_data::{Kind, MergeOp, Pairs, Val};
use weld_pieces::{KeyedPart, laws};

/// Keys and numbers of three pieces.
static PIECES: [&[(i64, i64)]; 3] = [
    &[(2, 10), (1, 20), (2, 3)],
    &[(2, 30)],
    &[(-1, 40), (1, 50), (2, 60)],
];

/// An operator, and what each key comes to.
static JOINS: [(MergeOp, &[(i64, i64)]); 4] = [
    (MergeOp::Add, &[(-1, 40), (1, 70), (2, 103)]),
    (MergeOp::Mul, &[(-1, 40), (1, 1000), (2, 54000)]),
    (MergeOp::Min, &[(-1, 40), (1, 20), (2, 3)]),
    (MergeOp::Max, &[(-1, 40), (1, 50), (2, 60)]),
];

/// One pair more.
fn merge_pair(part: &mut KeyedPart, key: i64, x: i64) -> Result<(), AllocError>
    requires key { part.old.key ≡ Some kinds.I64 }
    requires kind { part.old.kind ≡ kinds.I64 }
    requires kept { KeysAreKept (Some kinds.I64) part.old.numbers }
    ensures key { part.new.key ≡ Some kinds.I64 }
    ensures kind { part.new.kind ≡ kinds.I64 }
    ensures kept { OnOk result (KeysAreKept (Some kinds.I64) part.new.numbers) }
{
    laws::kept_keys_stay();
    part.merge_number(Kind::I64, key, i128::from(x))
}

/// The part of one piece.
fn keyed_of(alloc: Global, op: MergeOp, pairs: &[(i64, i64)]) -> Result<KeyedPart, AllocError>
    ensures key { IfOk result (λ k. k.key ≡ Some kinds.I64) }
    ensures kind { IfOk result (λ k. k.kind ≡ kinds.I64) }
    ensures kept { IfOk result (λ k. KeysAreKept (Some kinds.I64) k.numbers) }
{
    laws::kept_keys_stay();
    let mut part = KeyedPart::empty(alloc, Some(Kind::I64), op, Kind::I64);
    for (key, x) in pairs {
        merge_pair(&mut part, *key, *x)?;
    }
    Ok(part)
}

/// The join of two parts.
fn joined(first: KeyedPart, later: KeyedPart) -> Result<KeyedPart, AllocError>
    requires first_key { first.key ≡ Some kinds.I64 }
    requires first_kind { first.kind ≡ kinds.I64 }
    requires first_kept { KeysAreKept (Some kinds.I64) first.numbers }
    requires later_key { later.key ≡ Some kinds.I64 }
    requires later_kind { later.kind ≡ kinds.I64 }
    requires later_kept { KeysAreKept (Some kinds.I64) later.numbers }
    ensures key { IfOk result (λ k. k.key ≡ Some kinds.I64) }
    ensures kind { IfOk result (λ k. k.kind ≡ kinds.I64) }
    ensures kept { IfOk result (λ k. KeysAreKept (Some kinds.I64) k.numbers) }
{
    laws::kept_keys_stay();
    let mut part = first;
    match part.append(later) {
        Ok(()) => Ok(part),
        Err(e) => Err(e),
    }
}

/// The dictionary.
fn finished(alloc: Global, part: KeyedPart) -> Result<Pairs, AllocError>
    requires key { part.key ≡ Some kinds.I64 }
    requires kept { KeysAreKept (Some kinds.I64) part.numbers }
{
    laws::number_keys_have_one_type();
    part.into_pairs(alloc)
}

/// The first two pieces joined, then the third.
fn earlier_first(alloc: Global, op: MergeOp) -> Result<Pairs, AllocError> {
    let first = keyed_of(alloc, op, PIECES[0])?;
    let first = joined(first, keyed_of(alloc, op, PIECES[1])?)?;
    let first = joined(first, keyed_of(alloc, op, PIECES[2])?)?;
    finished(alloc, first)
}

/// The first piece, and the last two that are joined before.
fn later_first(alloc: Global, op: MergeOp) -> Result<Pairs, AllocError> {
    let later = keyed_of(alloc, op, PIECES[1])?;
    let later = joined(later, keyed_of(alloc, op, PIECES[2])?)?;
    let first = joined(keyed_of(alloc, op, PIECES[0])?, later)?;
    finished(alloc, first)
}

/// Whether a value is this number.
fn is_number(value: &Val, number: i64) -> bool {
    match value {
        Val::Num(n) => n.value == i128::from(number),
        _ => false,
    }
}

/// Whether a dictionary has these keys and numbers.
fn is_dictionary(pairs: &Pairs, expected: &[(i64, i64)]) -> bool {
    for (pair, (key, x)) in pairs.as_slice().iter().zip(expected) {
        if !is_number(&pair.key, *key) || !is_number(&pair.value, *x) {
            return false;
        }
    }
    pairs.len() == expected.len()
}

#[test]
fn keyed_pieces_join_earlier_first(rt: HostRuntime) -> Result<(), Fail> {
    for (op, expected) in &JOINS {
        let pairs = earlier_first(rt.alloc(), *op)?;
        assert!(rt; is_dictionary(&pairs, expected));
    }
    Ok(())
}

#[test]
fn keyed_pieces_join_later_first(rt: HostRuntime) -> Result<(), Fail> {
    for (op, expected) in &JOINS {
        let pairs = later_first(rt.alloc(), *op)?;
        assert!(rt; is_dictionary(&pairs, expected));
    }
    Ok(())
}
