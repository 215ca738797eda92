use crate::check_types::check::is;
use crate::check_types::trees::sums_to;
use std::alloc::{AllocError, Global};
use std::test::Fail;
use weld_check_types::type_walk::note_types;
use weld_data::{Kind, MergeOp};
use weld_tree::{BuildTy, Expr, Form, Leg, Legs, Refusal, Ty};
use weld_types::Scope;

/// The types of the nodes of such a sum.
#[derive(Drop)]
struct SumTypes {
    truth: Ty,
    number: Ty,
    vector: Ty,
    total: Ty,
}

fn types_of_a_sum(alloc: Global) -> Result<SumTypes, AllocError> {
    let item = Box::new(alloc, Ty::scalar(Kind::I64))?;
    Ok(SumTypes {
        truth: Ty::scalar(Kind::Bool),
        number: Ty::scalar(Kind::I64),
        vector: Ty::vec_of(alloc, Ty::scalar(Kind::I64))?,
        total: Ty::builder(BuildTy::Total(item, MergeOp::Add)),
    })
}

fn legs_are(legs: &Legs, wanted: &SumTypes) -> bool {
    match &legs.as_slice() {
        [Leg::Whole(vector)] => is(&vector.ty, &wanted.vector),
        _ => false,
    }
}

/// Of `merge(b, x)`.
fn merge_is(e: &Expr, wanted: &SumTypes) -> bool {
    match &e.form {
        Form::Two(_, builder, row) => {
            is(&e.ty, &wanted.total)
                && is(&builder.ty, &wanted.total)
                && is(&row.ty, &wanted.number)
        }
        _ => false,
    }
}

/// Of the loop.
fn loop_is(e: &Expr, wanted: &SumTypes) -> bool {
    match &e.form {
        Form::For(legs, builder, _, _, _, body) => {
            is(&e.ty, &wanted.total)
                && is(&builder.ty, &wanted.total)
                && legs_are(legs, wanted)
                && merge_is(body, wanted)
        }
        _ => false,
    }
}

/// Of the comparison, whose first part is the loop's result.
fn comparison_is(e: &Expr, wanted: &SumTypes) -> bool {
    match &e.form {
        Form::Two(_, result, number) => match &result.form {
            Form::One(_, sum) => {
                is(&e.ty, &wanted.truth)
                    && is(&result.ty, &wanted.number)
                    && is(&number.ty, &wanted.number)
                    && loop_is(sum, wanted)
            }
            _ => false,
        },
        _ => false,
    }
}

/// Of the whole.
fn all_are(e: &Expr, wanted: &SumTypes) -> bool {
    match &e.form {
        Form::Let(_, value, body) => {
            is(&e.ty, &wanted.truth) && is(&value.ty, &wanted.vector) && comparison_is(body, wanted)
        }
        _ => false,
    }
}

#[test]
fn each_node_of_a_sum_has_its_note(rt: HostRuntime) -> Result<(), Fail> {
    let alloc = rt.alloc();
    let wanted = types_of_a_sum(alloc)?;
    let mut e = sums_to(alloc, 7)?;
    match note_types(alloc, &mut e, &Scope::empty()) {
        Ok(ty) => assert!(rt; ty.same(&wanted.truth) && all_are(&e, &wanted)),
        Err(refusal) => assert_eq!(rt; refusal, Refusal::Memory),
    }
    Ok(())
}
