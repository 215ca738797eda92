use std::test::Fail;
use weld_data::{BinOp, Kind, MergeOp, binary, combine, neutral, wrap};

/// The answer of `binary` at the wrapped numbers, or None at truth values.
fn answer(op: BinOp, kind: Kind, x: i128, y: i128) -> Option<i128> {
    match kind {
        Kind::Bool => None,
        Kind::I8
        | Kind::I16
        | Kind::I32
        | Kind::I64
        | Kind::U8
        | Kind::U16
        | Kind::U32
        | Kind::U64 => binary(op, kind, wrap(kind, x), wrap(kind, y)),
    }
}

const MIN: i128 = -9223372036854775808;

const MAX: i128 = 9223372036854775807;

const GREATEST: i128 = 18446744073709551615;

// The expected numbers are those of Rust's `wrapping_` methods at the kind's type.
static OPERATIONS: [(BinOp, Kind, i128, i128, Option<i128>); 37] = [
    (BinOp::Add, Kind::I64, MAX, 1, Some(MIN)),
    (BinOp::Add, Kind::U8, 200, 100, Some(44)),
    (BinOp::Add, Kind::I8, 127, 1, Some(-128)),
    (BinOp::Sub, Kind::U8, 3, 5, Some(254)),
    (BinOp::Sub, Kind::I32, -2147483648, 1, Some(2147483647)),
    (BinOp::Mul, Kind::I32, 2147483647, 2, Some(-2)),
    (BinOp::Mul, Kind::I8, 100, 3, Some(44)),
    (BinOp::Mul, Kind::I64, MIN, MIN, Some(0)),
    (BinOp::Mul, Kind::U32, 4294967295, 4294967295, Some(1)),
    (BinOp::Mul, Kind::U64, GREATEST, GREATEST, Some(1)),
    (BinOp::Add, Kind::U64, GREATEST, 1, Some(0)),
    (BinOp::Sub, Kind::U16, 3, 5, Some(65534)),
    (BinOp::Div, Kind::I64, -7, 2, Some(-3)),
    (BinOp::Div, Kind::I8, -128, -1, Some(-128)),
    (BinOp::Div, Kind::I16, 7, -2, Some(-3)),
    (BinOp::Div, Kind::I32, 7, -2, Some(-3)),
    (BinOp::Div, Kind::I64, MIN, -1, Some(MIN)),
    (BinOp::Div, Kind::U8, 7, 0, None),
    (BinOp::Div, Kind::U16, 7, 0, None),
    (BinOp::Div, Kind::U32, 7, 0, None),
    (BinOp::Div, Kind::U64, 7, 0, None),
    (BinOp::Div, Kind::U64, GREATEST, 2, Some(MAX)),
    (BinOp::Rem, Kind::I64, -7, 2, Some(-1)),
    (BinOp::Rem, Kind::I32, 7, -2, Some(1)),
    (BinOp::Rem, Kind::I64, MIN, -1, Some(0)),
    (BinOp::Rem, Kind::I64, 7, 0, None),
    (BinOp::Eq, Kind::I64, 3, 3, Some(1)),
    (BinOp::Lt, Kind::I8, -1, 0, Some(1)),
    (BinOp::Le, Kind::I16, -5, -5, Some(1)),
    (BinOp::Le, Kind::I32, -5, -5, Some(1)),
    (BinOp::Ne, Kind::I64, 3, 3, Some(0)),
    (BinOp::Lt, Kind::U8, 200, 100, Some(0)),
    (BinOp::Lt, Kind::U16, 200, 100, Some(0)),
    (BinOp::Lt, Kind::U32, 200, 100, Some(0)),
    (BinOp::Lt, Kind::U64, 200, 100, Some(0)),
    (BinOp::Gt, Kind::I32, -5, -6, Some(1)),
    (BinOp::Ge, Kind::I64, MIN, MAX, Some(0)),
];

#[test]
fn operations(rt: HostRuntime) -> Result<(), Fail> {
    for (op, kind, x, y, expected) in &OPERATIONS {
        assert_eq!(rt;
            answer(*op, *kind, *x, *y),
            *expected,
            "{op:?} {kind:?} {x} {y}"
        );
    }
    assert_eq!(rt; binary(BinOp::Eq, Kind::Bool, 0, 1), Some(0));
    assert_eq!(rt; binary(BinOp::Ne, Kind::Bool, 0, 1), Some(1));
    Ok(())
}

#[test]
fn wraps_and_combines(rt: HostRuntime) -> Result<(), Fail> {
    assert_eq!(rt; wrap(Kind::I8, 128), -128);
    assert_eq!(rt; wrap(Kind::U8, -1), 255);
    assert_eq!(rt; wrap(Kind::U64, -1), GREATEST);
    assert_eq!(rt; wrap(Kind::I64, 9223372036854775808), MIN);
    assert_eq!(rt; combine(MergeOp::Mul, Kind::I8, -128, -1), -128);
    assert_eq!(rt; combine(MergeOp::Min, Kind::I64, MIN, MAX), MIN);
    assert_eq!(rt; neutral(MergeOp::Min, Kind::I8), 127);
    assert_eq!(rt; neutral(MergeOp::Min, Kind::U64), GREATEST);
    assert_eq!(rt; neutral(MergeOp::Max, Kind::I32), -2147483648);
    Ok(())
}
