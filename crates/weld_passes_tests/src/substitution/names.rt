use std::alloc::{AllocError, Global};
use std::test::Fail;
use weld_parse::parse;
use weld_substitution::{free_syms, put_at, uses_of};
use weld_tree::{Expr, Program, Sym};

/// The program of the text.
fn read(alloc: Global, text: &str) -> Result<Program, Fail> {
    match parse(alloc, text.as_bytes()) {
        Ok(program) => Ok(program),
        Err(_) => Err(Fail::from(text)),
    }
}

/// The name of the parameter at that place, from 0.
fn param(program: &Program, place: usize) -> Option<Sym> {
    match program.params.as_slice().get(place) {
        Some(binder) => Some(binder.sym),
        None => None,
    }
}

/// The name that occurs free at that place, from 0, among those of the expression.
fn free_at(alloc: Global, e: &Expr, place: usize) -> Result<Option<Sym>, AllocError> {
    let free = free_syms(alloc, e)?;
    Ok(free.as_slice().get(place).copied())
}

/// Whether the names of the program's body that occur free are its parameters of these places.
fn are_free(alloc: Global, program: &Program, places: &[usize]) -> Result<bool, AllocError> {
    for (place, wanted) in places.iter().enumerate() {
        if free_at(alloc, &program.body, place)? != param(program, *wanted) {
            return Ok(false);
        }
    }
    Ok(free_at(alloc, &program.body, places.len())? == None)
}

#[test]
fn free_names_stand_in_the_order_of_their_first_uses(rt: HostRuntime) -> Result<(), Fail> {
    let program = read(
        rt.alloc(),
        "|a: i64, b: i64, v: vec[i64]| let c = b + a; result(for(v, merger[i64,+], |m, i, x| merge(m, x + c + b)))",
    )?;
    assert!(rt; are_free(rt.alloc(), &program, &[1, 0, 2])?);
    Ok(())
}

/// How often the second parameter is used in the body of the program, and how often when the value stands in its place.
fn uses_around(alloc: Global, program: Program, value: &Expr) -> Result<(u64, u64), AllocError> {
    let Some(name) = param(&program, 1) else {
        return Ok((0, 0));
    };
    let Program { params: _, body } = program;
    let before = uses_of(&body, name);
    let changed = put_at(alloc, body, name, value)?;
    Ok((before, uses_of(&changed, name)))
}

#[test]
fn a_value_takes_the_place_of_each_use(rt: HostRuntime) -> Result<(), Fail> {
    let number = read(rt.alloc(), "7L")?;
    let program = read(rt.alloc(), "|a: i64, b: i64| let c = b + a; c + b")?;
    let (before, after) = uses_around(rt.alloc(), program, &number.body)?;
    assert!(rt; before == 2 && after == 0);
    Ok(())
}
