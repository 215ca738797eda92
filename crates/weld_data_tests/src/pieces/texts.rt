ghost use Rattle.std.specs.Prelude.{IfOk};
ghost use Rattle.weld_values.specs.Judging.{IsReadable};

use std::alloc::{AllocError, Global};
use std::test::Fail;
use std::thread::Threads;
use weld_data::{Column, Kind, Val};
use weld_text_pieces::reading::read_value;
use weld_tree::Ty;
use weld_values::DataFault;

/// How many numbers stand before the last one: so many that the text is read in pieces.
const COUNT: usize = 70_000;

/// The first number, the last number, and the last number as it must be read or the fault.
type Case = (&'static str, &'static str, Result<i128, DataFault>);

static CASES: [Case; 6] = [
    ("12", "-9223372036854775808", Ok(-9_223_372_036_854_775_808)),
    (" 7\n", " 0012345678901\t", Ok(12_345_678_901)),
    ("12", "9223372036854775808", Err(DataFault::Range)),
    ("9223372036854775808", "x", Err(DataFault::Syntax)),
    ("12", "", Err(DataFault::Syntax)),
    ("12", "1]", Err(DataFault::Syntax)),
];

static U64_CASES: [Case; 2] = [
    ("12", "18446744073709551615", Ok(18_446_744_073_709_551_615)),
    ("12", "18446744073709551616", Err(DataFault::Range)),
];

fn vec_of(alloc: Global, kind: Kind) -> Result<Ty, AllocError>
    ensures { IfOk result IsReadable }
{
    Ty::vec_of(alloc, Ty::scalar(kind))
}

/// The text of a list of the first number, three-digit numbers, and the last.
fn long_text(alloc: Global, first: &str, last: &str) -> Result<Vec<u8>, AllocError> {
    let mut text = Vec::new(alloc);
    text.push(b'[')?;
    text.extend_from_slice(first.as_bytes())?;
    for _ in 1..COUNT {
        text.extend_from_slice(b",345")?;
    }
    text.push(b',')?;
    text.extend_from_slice(last.as_bytes())?;
    text.push(b']')?;
    Ok(text)
}

/// Whether the list has all numbers, and this one at its end.
fn ends_with(value: &Val, last: i128) -> bool {
    let (len, found) = match value {
        Val::List(Column::I64(items)) => {
            (items.len(), items.as_slice().last().map(|x| i128::from(*x)))
        }
        Val::List(Column::U64(items)) => {
            (items.len(), items.as_slice().last().map(|x| i128::from(*x)))
        }
        _ => return false,
    };
    len == COUNT + 1 && found == Some(last)
}

/// Whether the case is as it should be.
fn holds(
    rt: &(impl Threads + Sync),
    alloc: Global,
    ty: &Ty,
    case: &Case,
) -> Result<bool, AllocError>
    requires { IsReadable ty.now }
{
    let (first, last, wanted) = case;
    let text = long_text(alloc, first, last)?;
    Ok(match (read_value(rt, alloc, &text, ty, 3), wanted) {
        (Ok(value), Ok(number)) => ends_with(&value, *number),
        (Err(fault), Err(other)) => fault == *other,
        _ => false,
    })
}

#[test]
fn long_lists_are_read_or_told(rt: HostRuntime) -> Result<(), Fail> {
    let ty = vec_of(rt.alloc(), Kind::I64)?;
    for case in &CASES {
        assert!(rt; holds(&rt, rt.alloc(), &ty, case)?);
    }
    let ty = vec_of(rt.alloc(), Kind::U64)?;
    for case in &U64_CASES {
        assert!(rt; holds(&rt, rt.alloc(), &ty, case)?);
    }
    Ok(())
}
