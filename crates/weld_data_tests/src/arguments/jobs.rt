ghost use Rattle.std.specs.Prelude.{◌≡◌, Some, IfOk};
ghost use Rattle.weld_meaning.specs.Typing.{ParamsFit};

use std::alloc::{AllocError, Global};
use std::test::Fail;
use std::thread::Threads;
use weld_data::{Kind, Val, Vals};
use weld_inputs::arguments::{DataStop, read_arguments};
use weld_job::split_blocks;
use weld_tree::{Binder, Binders, Code, Place, Sym, Ty};

/// A job; the first argument of two, or the number and the code of what is wrong.
type Case = (&'static [u8], Result<i128, (u64, Code)>);

static CASES: [Case; 12] = [
    (b"\n%%\n%value\n7\n%value\ntrue\n", Ok(7)),
    (b"\n%%\n \n%value \n255\n%value\n false", Ok(255)),
    (b"\n%%\n1\n%value\n7\n%value\ntrue", Err((0, Code::Form))),
    (b"", Err((1, Code::Missing))),
    (b"\n%%\n%value\n7\n", Err((2, Code::Missing))),
    (b"\n%%\n%value\n256\n", Err((1, Code::Range))),
    (b"\n%%\n%value\n-\n%table\n", Err((1, Code::Syntax))),
    (b"\n%%\n%table\n7\n%value\ntrue", Err((1, Code::Form))),
    (b"\n%%\n%value\n7\n%values\ntrue", Err((2, Code::Form))),
    (b"\n%%\n%value\n7\n%value\n1\n", Err((2, Code::Syntax))),
    (
        b"\n%%\n%value\n7\n%value\ntrue\n%value\n",
        Err((3, Code::Extra)),
    ),
    (
        b"\n%%\n%value\n7\n%value\nx\n%value\n",
        Err((2, Code::Syntax)),
    ),
];

fn param(sym: u32, ty: Ty) -> Binder
    ensures { result.note ≡ Some ty }
{
    Binder {
        sym: Sym(sym),
        place: Place { line: 1, column: 1 },
        note: Some(ty),
        note_place: Place { line: 1, column: 1 },
    }
}

/// The parameters `a: u8, b: bool`.
fn params(alloc: Global) -> Result<Binders, AllocError>
    ensures { IfOk result ParamsFit }
{
    let mut params = Binders::new(alloc);
    params.push(param(0, Ty::scalar(Kind::U8)))?;
    params.push(param(1, Ty::scalar(Kind::Bool)))?;
    Ok(params)
}

/// The first of two values, where it is a number.
fn first_of_two(arguments: &Vals) -> Option<i128> {
    match arguments.as_slice() {
        [Val::Num(number), _] => Some(number.value),
        _ => None,
    }
}

/// Whether the case is as it should be.
fn holds(
    rt: &(impl Threads + Sync),
    alloc: Global,
    params: &Binders,
    case: &Case,
) -> Result<bool, AllocError>
    requires { ParamsFit params.now }
{
    let (text, wanted) = case;
    let job = split_blocks(alloc, text)?;
    Ok(match (read_arguments(rt, alloc, params, &job, 2), wanted) {
        (Ok(arguments), Ok(first)) => first_of_two(&arguments) == Some(*first),
        (Err(DataStop::Unfit(number, code)), Err((n, c))) => number == *n && code == *c,
        _ => false,
    })
}

#[test]
fn each_job_has_its_arguments_or_what_is_wrong(rt: HostRuntime) -> Result<(), Fail> {
    let params = params(rt.alloc())?;
    for case in &CASES {
        assert!(rt; holds(&rt, rt.alloc(), &params, case)?);
    }
    Ok(())
}
