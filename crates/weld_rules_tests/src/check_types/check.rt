use crate::check_types::trees::{minus_seven, minus_true};
use std::test::Fail;
use weld_check_types::check_types;
use weld_data::Kind;
use weld_tree::{Code, Form, Known, Place, Program, Refusal, Ty};

/// Whether the type is noted.
pub(crate) fn is(known: &Known, ty: &Ty) -> bool {
    match known {
        Known::Is(other) => other.same(ty),
        Known::Blank => false,
    }
}

/// Whether the type is noted at the body, which has one part, and at the part.
fn both_are(p: &Program, ty: &Ty) -> bool {
    match &p.body.form {
        Form::One(_, part) => is(&p.body.ty, ty) && is(&part.ty, ty),
        _ => false,
    }
}

#[test]
fn a_typed_program_has_its_notes(rt: HostRuntime) -> Result<(), Fail> {
    let alloc = rt.alloc();
    let number = Ty::scalar(Kind::I64);
    match check_types(alloc, minus_seven(alloc)?) {
        Ok(typed) => {
            assert!(rt; typed.ty.same(&number));
            assert!(rt; both_are(typed.program(), &number));
        }
        Err(refusal) => assert_eq!(rt; refusal, Refusal::Memory),
    }
    Ok(())
}

#[test]
fn the_child_is_refused_before_its_parent(rt: HostRuntime) -> Result<(), Fail> {
    let alloc = rt.alloc();
    let wanted = Refusal::At(Code::Y5, Place { line: 1, column: 3 });
    assert_eq!(rt; check_types(alloc, minus_true(alloc)?).err(), Some(wanted));
    Ok(())
}
