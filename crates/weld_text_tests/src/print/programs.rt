use std::alloc::{AllocError, Global};
use std::test::Fail;
use weld_data::Kind;
use weld_print::print;
use weld_tree::{Binders, Expr, Form, Known, LeafForm, OneForm, Place, Program};

/// The program `-5L`.
fn number(alloc: Global) -> Result<Program, AllocError> {
    let body = Expr {
        form: Form::Leaf(LeafForm::Int(Kind::I64, -5)),
        place: Place { line: 1, column: 1 },
        ty: Known::Blank,
    };
    Ok(Program {
        params: Binders::new(alloc),
        body: Box::new(alloc, body)?,
    })
}

/// The program `-(-5L)`.
fn negation(alloc: Global) -> Result<Program, AllocError> {
    let Program { params, body } = number(alloc)?;
    let negated = Expr {
        form: Form::One(OneForm::Neg, body),
        place: Place { line: 1, column: 1 },
        ty: Known::Blank,
    };
    Ok(Program {
        params,
        body: Box::new(alloc, negated)?,
    })
}

#[test]
fn programs_are_printed(rt: HostRuntime) -> Result<(), Fail> {
    let alloc = rt.alloc();
    let number = number(alloc)?;
    let text = print(alloc, &number)?;
    assert!(rt; text.as_slice() == b"-5L".as_slice());
    let negation = negation(alloc)?;
    let text = print(alloc, &negation)?;
    assert!(rt; text.as_slice() == b"-(-5L)".as_slice());
    Ok(())
}
