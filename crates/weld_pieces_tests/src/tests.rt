ghost use Rattle.std.specs.Prelude.{◌≡◌};
ghost use Rattle.weld_data.specs.declared.kind.Kind.TheVariants as kinds;

use std::test::Fail;
use weld_data::{Column, Kind, MergeOp, Stop};
use weld_pieces::{CellsPart, KeyedPart, ListPart, TotalPart};

/// An operator, three numbers, and what they come to.
static TOTALS: [(MergeOp, i64, i64, i64, i64); 6] = [
    (MergeOp::Add, 1, 2, 3, 6),
    (
        MergeOp::Add,
        9223372036854775807,
        1,
        0,
        -9223372036854775808,
    ),
    (MergeOp::Mul, 2, 3, 4, 24),
    (MergeOp::Mul, 9223372036854775807, 2, 1, -2),
    (MergeOp::Min, 5, -7, 6, -7),
    (MergeOp::Max, 5, -7, 6, 6),
];

fn total_of(op: MergeOp, x: i64) -> TotalPart
    ensures op { result.op ≡ op }
    ensures kind { result.kind ≡ kinds.I64 }
{
    let mut part = TotalPart::neutral(op, Kind::I64);
    part.merge_number(x);
    part
}

#[test]
fn totals_join_both_ways(rt: HostRuntime) -> Result<(), Fail> {
    for (op, x, y, z, all) in &TOTALS {
        let mut left = total_of(*op, *x);
        left.append(&total_of(*op, *y));
        left.append(&total_of(*op, *z));
        let mut right = total_of(*op, *y);
        right.append(&total_of(*op, *z));
        let mut first = total_of(*op, *x);
        first.append(&right);
        assert_eq!(rt; left.number().value, i128::from(*all));
        assert_eq!(rt; first.number().value, i128::from(*all));
    }
    Ok(())
}

#[test]
fn totals_of_u64_wrap(rt: HostRuntime) -> Result<(), Fail> {
    let mut product = TotalPart::neutral(MergeOp::Mul, Kind::U64);
    product.merge_wide(18446744073709551615);
    product.merge_wide(18446744073709551615);
    product.merge_number(3);
    assert_eq!(rt; product.number().value, 3);
    let least = TotalPart::neutral(MergeOp::Min, Kind::U64);
    assert_eq!(rt; least.number().value, 18446744073709551615);
    Ok(())
}

#[test]
fn lists_append(rt: HostRuntime) -> Result<(), Fail> {
    let mut part = ListPart::empty(rt.alloc(), Some(Kind::I64));
    assert_eq!(rt; part.spare(), 0);
    part.reserve(3)?;
    assert!(rt; part.spare() >= 3);
    part.push_number(Kind::I64, 1)?;
    part.push_number(Kind::I64, 2)?;
    let mut later = ListPart::empty(rt.alloc(), Some(Kind::I64));
    later.push_number(Kind::I64, 3)?;
    part.append(later)?;
    match part.into_column() {
        Column::I64(items) => assert_eq!(rt; items.as_slice(), [1i64, 2, 3].as_slice()),
        _ => assert!(rt; false),
    }
    Ok(())
}

#[test]
fn lists_append_many_numbers(rt: HostRuntime) -> Result<(), Fail> {
    let mut part = ListPart::empty(rt.alloc(), Some(Kind::U8));
    part.push_number(Kind::U8, 7)?;
    part.push_numbers(Kind::U8, &[255, 0])?;
    let mut first = ListPart::empty(rt.alloc(), Some(Kind::U8));
    first.append(part)?;
    match first.into_column() {
        Column::U8(items) => assert_eq!(rt; items.as_slice(), [7u8, 255, 0].as_slice()),
        _ => assert!(rt; false),
    }
    let mut truths = ListPart::empty(rt.alloc(), Some(Kind::Bool));
    truths.push_numbers(Kind::Bool, &[1, 0])?;
    match truths.into_column() {
        Column::Bool(items) => assert_eq!(rt; items.as_slice(), [true, false].as_slice()),
        _ => assert!(rt; false),
    }
    Ok(())
}

#[test]
fn cells_merge_and_join(rt: HostRuntime) -> Result<(), Fail> {
    let mut part = CellsPart::neutral(rt.alloc(), MergeOp::Add, Kind::I64, 2)?;
    let mut later = CellsPart::neutral(rt.alloc(), MergeOp::Add, Kind::I64, 2)?;
    assert!(rt; part.merge_number(0, 5).is_ok());
    assert!(rt; later.merge_number(1, 7).is_ok());
    assert!(rt; later.merge_number(0, 1).is_ok());
    assert_eq!(rt; part.merge_number(-1, 5), Err(Stop::Fault));
    assert_eq!(rt; part.merge_number(2, 5), Err(Stop::Fault));
    part.append(&later);
    match part.into_column(rt.alloc())? {
        Column::I64(items) => assert_eq!(rt; items.as_slice(), [6i64, 7].as_slice()),
        _ => assert!(rt; false),
    }
    Ok(())
}

#[test]
fn cells_of_u64_merge_and_join(rt: HostRuntime) -> Result<(), Fail> {
    let mut part = CellsPart::neutral(rt.alloc(), MergeOp::Max, Kind::U64, 2)?;
    let mut later = CellsPart::neutral(rt.alloc(), MergeOp::Max, Kind::U64, 2)?;
    assert!(rt; part.merge_wide(0, 18446744073709551615).is_ok());
    assert!(rt; later.merge_wide(0, 9223372036854775808).is_ok());
    assert!(rt; later.merge_number(1, 7).is_ok());
    part.append(&later);
    match part.into_column(rt.alloc())? {
        Column::U64(items) => {
            assert_eq!(rt; items.as_slice(), [18446744073709551615u64, 7].as_slice());
        }
        _ => assert!(rt; false),
    }
    Ok(())
}

#[test]
fn numbers_by_keys_merge_and_join(rt: HostRuntime) -> Result<(), Fail> {
    let mut part = KeyedPart::empty(rt.alloc(), Some(Kind::I64), MergeOp::Mul, Kind::I64);
    let mut later = KeyedPart::empty(rt.alloc(), Some(Kind::I64), MergeOp::Mul, Kind::I64);
    part.merge_number(Kind::I64, 9, 2)?;
    part.merge_number(Kind::I64, -4, 3)?;
    later.merge_number(Kind::I64, 9, 5)?;
    later.merge_number(Kind::I64, 1, 7)?;
    part.append(later)?;
    assert_eq!(rt; part.key(), Some(Kind::I64));
    Ok(())
}
