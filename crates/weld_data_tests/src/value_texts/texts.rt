ghost use Rattle.std.specs.Prelude.{IfOk};
ghost use Rattle.weld_values.specs.Judging.{IsReadable};

use std::alloc::{AllocError, Global};
use std::test::Fail;
use weld_data::{Kind, Text};
use weld_tree::{Ty, Tys};
use weld_values::{DataFault, read_value, write_value};

/// A text, and what is written of the value that it reads as, or the fault.
type Case = (&'static str, Result<&'static str, DataFault>);

/// What is written of what the text reads as.
fn rewritten(alloc: Global, ty: &Ty, text: &str) -> Result<Text, DataFault>
    requires { IsReadable ty.now }
{
    let value = read_value(alloc, text.as_bytes(), ty)?;
    match write_value(alloc, &value, ty) {
        Ok(text) => Ok(text),
        Err(_) => Err(DataFault::Memory),
    }
}

/// Whether each case is as it should be.
fn all_hold(alloc: Global, ty: &Ty, cases: &[Case]) -> bool
    requires { IsReadable ty.now }
{
    for (text, wanted) in cases {
        let holds = match (rewritten(alloc, ty, text), wanted) {
            (Ok(text), Ok(wanted)) => text.as_slice() == wanted.as_bytes(),
            (Err(fault), Err(wanted)) => fault == *wanted,
            _ => false,
        };
        if !holds {
            return false;
        }
    }
    true
}

fn vec_of(alloc: Global, kind: Kind) -> Result<Ty, AllocError>
    ensures { IfOk result IsReadable }
{
    Ty::vec_of(alloc, Ty::scalar(kind))
}

static I64S: [Case; 9] = [
    ("[]", Ok("[]")),
    (" [ 1 , -2,\t-0 ,007 ]\n", Ok("[1,-2,0,7]")),
    (
        "[9223372036854775807,-9223372036854775808]",
        Ok("[9223372036854775807,-9223372036854775808]"),
    ),
    ("[9223372036854775808]", Err(DataFault::Range)),
    ("[-9223372036854775809]", Err(DataFault::Range)),
    ("[99999999999999999999999999]", Err(DataFault::Range)),
    ("[9223372036854775808,]", Err(DataFault::Syntax)),
    ("[1,2", Err(DataFault::Syntax)),
    ("[- 1]", Err(DataFault::Syntax)),
];

#[test]
fn vectors_of_i64(rt: HostRuntime) -> Result<(), Fail> {
    let ty = vec_of(rt.alloc(), Kind::I64)?;
    assert!(rt; all_hold(rt.alloc(), &ty, &I64S));
    Ok(())
}

static U8S: [Case; 3] = [
    ("[0,255,-0]", Ok("[0,255,0]")),
    ("[256]", Err(DataFault::Range)),
    ("[-1]", Err(DataFault::Range)),
];

#[test]
fn vectors_of_u8(rt: HostRuntime) -> Result<(), Fail> {
    let ty = vec_of(rt.alloc(), Kind::U8)?;
    assert!(rt; all_hold(rt.alloc(), &ty, &U8S));
    Ok(())
}

static U64S: [Case; 5] = [
    (
        "[0,18446744073709551615,00018446744073709551615]",
        Ok("[0,18446744073709551615,18446744073709551615]"),
    ),
    ("[18446744073709551616]", Err(DataFault::Range)),
    ("[18446744073709551620]", Err(DataFault::Range)),
    ("[184467440737095516159]", Err(DataFault::Range)),
    ("[-1]", Err(DataFault::Range)),
];

#[test]
fn vectors_of_u64(rt: HostRuntime) -> Result<(), Fail> {
    let ty = vec_of(rt.alloc(), Kind::U64)?;
    assert!(rt; all_hold(rt.alloc(), &ty, &U64S));
    Ok(())
}

static I8S: [Case; 6] = [
    (
        "\"a\\\"\\\\\\n\\t\\xFf~\"",
        Ok("\"a\\\"\\\\\\x0a\\x09\\xff~\""),
    ),
    ("[97,-1,-128,127]", Ok("\"a\\xff\\x80\\x7f\"")),
    ("[ ]", Ok("\"\"")),
    ("[128]", Err(DataFault::Range)),
    ("\"\\xf\"", Err(DataFault::Syntax)),
    ("\"a", Err(DataFault::Syntax)),
];

#[test]
fn strings(rt: HostRuntime) -> Result<(), Fail> {
    let ty = vec_of(rt.alloc(), Kind::I8)?;
    assert!(rt; all_hold(rt.alloc(), &ty, &I8S));
    Ok(())
}

static BOOLS: [Case; 3] = [
    ("[true , false]", Ok("[true,false]")),
    ("[True]", Err(DataFault::Syntax)),
    ("[1]", Err(DataFault::Syntax)),
];

#[test]
fn vectors_of_bool(rt: HostRuntime) -> Result<(), Fail> {
    let ty = vec_of(rt.alloc(), Kind::Bool)?;
    assert!(rt; all_hold(rt.alloc(), &ty, &BOOLS));
    Ok(())
}

/// Vectors of a number and a string.
fn vec_of_structs(alloc: Global) -> Result<Ty, AllocError>
    ensures { IfOk result IsReadable }
{
    let mut fields = Tys::new(alloc);
    fields.push(Ty::scalar(Kind::I32))?;
    fields.push(vec_of(alloc, Kind::I8)?)?;
    Ty::vec_of(alloc, Ty::struct_of(fields))
}

static STRUCTS: [Case; 5] = [
    (
        " [ { 1 , \"a\" } , { -2 , [ 98 ] } ] ",
        Ok("[{1,\"a\"},{-2,\"b\"}]"),
    ),
    ("[]", Ok("[]")),
    ("[{1}]", Err(DataFault::Syntax)),
    ("[{1,\"a\",}]", Err(DataFault::Syntax)),
    ("[{2147483648,\"a\"}]", Err(DataFault::Range)),
];

#[test]
fn vectors_of_structs(rt: HostRuntime) -> Result<(), Fail> {
    let ty = vec_of_structs(rt.alloc())?;
    assert!(rt; all_hold(rt.alloc(), &ty, &STRUCTS));
    Ok(())
}

/// Dictionaries from numbers to truth values.
fn dict_of_bools(alloc: Global) -> Result<Ty, AllocError>
    ensures { IfOk result IsReadable }
{
    Ty::dict_of(alloc, Ty::scalar(Kind::I32), Ty::scalar(Kind::Bool))
}

static DICTS: [Case; 5] = [
    ("dict{}", Ok("dict{}")),
    ("dict { 2:true, -1 : false }", Ok("dict{-1:false,2:true}")),
    ("dict{1:true,01:false}", Err(DataFault::Repeat)),
    (
        "dict{1:true,1:false,2147483648:true}",
        Err(DataFault::Range),
    ),
    ("dict{1:true,1:false,}", Err(DataFault::Syntax)),
];

#[test]
fn dictionaries(rt: HostRuntime) -> Result<(), Fail> {
    let ty = dict_of_bools(rt.alloc())?;
    assert!(rt; all_hold(rt.alloc(), &ty, &DICTS));
    Ok(())
}
