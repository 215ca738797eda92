ghost use Rattle.std.specs.Prelude.{IfOk};
ghost use Rattle.weld_values.specs.Judging.{IsReadable};

use std::alloc::{AllocError, Global};
use std::test::Fail;
use std::thread::Threads;
use weld_data::Kind;
use weld_text_pieces::reading::read_value;
use weld_tree::{Ty, Tys};
use weld_values::write_value;

/// A list's text is so long that it is read in pieces.
const LONG: usize = 300_000;

/// How a value of a list is spelled, and how it is written.
type Case = (&'static str, &'static str);

static STRINGS: [Case; 5] = [
    ("\"newt\"", "\"newt\""),
    (" \"\" ", "\"\""),
    ("\"a]b}\"", "\"a]b}\""),
    ("\"a\\\"b\\\\\"", "\"a\\\"b\\\\\""),
    ("[104, 105]", "\"hi\""),
];

static LISTS: [Case; 3] = [
    ("[1,20,-300]", "[1,20,-300]"),
    (" [ 007 , 8\n] ", "[7,8]"),
    ("[]", "[]"),
];

static STRUCTS: [Case; 3] = [
    ("{1,\"}\"}", "{1,\"}\"}"),
    (" { 1 , \"a\\\"},{\" } ", "{1,\"a\\\"},{\"}"),
    ("{-12,[]}", "{-12,\"\"}"),
];

/// Appends a value, behind a comma or the opening bracket.
fn add(text: &mut Vec<u8>, value: &str) -> Result<(), AllocError> {
    text.push(if text.is_empty() { b'[' } else { b',' })?;
    text.extend_from_slice(value.as_bytes())
}

/// Whether a long list of the cases' values over and over reads as what is written so.
fn holds(
    rt: &(impl Threads + Sync),
    alloc: Global,
    ty: &Ty,
    cases: &[Case],
) -> Result<bool, AllocError>
    requires { IsReadable ty.now }
{
    let mut text = Vec::new(alloc);
    let mut wanted = Vec::new(alloc);
    for _ in 0..LONG / 8 / cases.len().max(1) {
        for (spelled, written) in cases {
            add(&mut text, spelled)?;
            add(&mut wanted, written)?;
        }
    }
    text.push(b']')?;
    wanted.push(b']')?;
    match read_value(rt, alloc, &text, ty, 3) {
        Ok(value) => Ok(write_value(alloc, &value, ty)?.as_slice() == wanted.as_slice()),
        Err(_) => Ok(false),
    }
}

/// The type of lists of lists of the kind.
fn lists_of(alloc: Global, kind: Kind) -> Result<Ty, AllocError>
    ensures { IfOk result IsReadable }
{
    let row = Ty::vec_of(alloc, Ty::scalar(kind))?;
    Ty::vec_of(alloc, row)
}

/// The type of lists of structs of a number and a string.
fn structs(alloc: Global) -> Result<Ty, AllocError>
    ensures { IfOk result IsReadable }
{
    let mut fields = Tys::new(alloc);
    fields.push(Ty::scalar(Kind::I64))?;
    fields.push(Ty::vec_of(alloc, Ty::scalar(Kind::I8))?)?;
    Ty::vec_of(alloc, Ty::struct_of(fields))
}

#[test]
fn long_lists_of_lists_and_structs(rt: HostRuntime) -> Result<(), Fail> {
    let ty = lists_of(rt.alloc(), Kind::I8)?;
    assert!(rt; holds(&rt, rt.alloc(), &ty, &STRINGS)?);
    let ty = lists_of(rt.alloc(), Kind::I64)?;
    assert!(rt; holds(&rt, rt.alloc(), &ty, &LISTS)?);
    let ty = structs(rt.alloc())?;
    assert!(rt; holds(&rt, rt.alloc(), &ty, &STRUCTS)?);
    Ok(())
}
