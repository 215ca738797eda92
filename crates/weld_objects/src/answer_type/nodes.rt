//! The types of nodes by those of their parts.
ghost use Rattle.std.specs.Prelude.{◌≡◌, IfOk};
ghost use Rattle.weld_tree.specs.TypeTree.{pack};
ghost use Rattle.weld_meaning.specs.Typing.{truth_type};
ghost use Rattle.weld_tree.specs.ExprView.{view_leaf};
ghost use Rattle.weld_objects.specs.Answered.{leaf_answer, nth_type, field_answer, result_answer, operated_answer, looked_up_answer};

use std::alloc::{AllocError, Global};
use weld_data::{BinOp, Kind};
use weld_tree::{LeafForm, Ty, TyForm, Tys};
use weld_types::Scope;

/// What is answered where there is no type.
fn no_type() -> Ty
    ensures { result ≡ truth_type }
{
    Ty::scalar(Kind::Bool)
}

pub(crate) fn leaf_answer(alloc: Global, leaf: &LeafForm, scope: &Scope) -> Result<Ty, AllocError>
    ensures { IfOk result (λ ty. ty ≡ leaf_answer (view_leaf leaf.now) scope.now) }
{
    match leaf {
        LeafForm::Int(kind, _) => Ok(Ty::scalar(*kind)),
        LeafForm::Truth(_) => Ok(Ty::scalar(Kind::Bool)),
        LeafForm::Chars(_) => Ty::vec_of(alloc, Ty::scalar(Kind::I8)),
        LeafForm::Name(name) => match scope.type_of(*name) {
            Some(ty) => ty.copy(alloc),
            None => Ok(no_type()),
        },
        LeafForm::Builder(builder) => Ok(Ty::builder(builder.copy(alloc)?)),
    }
}

/// The type of the field of that number, from 0.
pub(crate) fn field_answer(alloc: Global, number: u32, ty: &Ty) -> Result<Ty, AllocError>
    ensures { IfOk result (λ found. found ≡ field_answer number ty.now) }
{
    match &ty.form {
        TyForm::Struct(fields) => nth_type(alloc, number as usize, fields),
        TyForm::Scalar(_) | TyForm::Vec(_) | TyForm::Dict(_, _) | TyForm::Build(_) => Ok(no_type()),
    }
}

#[tactic(auto, using(crate::proofs::Answers::nth_at, crate::proofs::Answers::nth_past))]
fn nth_type(alloc: Global, place: usize, fields: &Tys) -> Result<Ty, AllocError>
    ensures { IfOk result (λ found. found ≡ nth_type place (pack fields.now)) }
{
    match fields.as_slice().get(place) {
        Some(field) => field.copy(alloc),
        None => Ok(no_type()),
    }
}

/// The type of a builder's result.
pub(crate) fn result_answer(alloc: Global, ty: &Ty) -> Result<Ty, AllocError>
    ensures { IfOk result (λ found. found ≡ result_answer ty.now) }
{
    match &ty.form {
        TyForm::Build(builder) => builder.gives(alloc),
        TyForm::Scalar(_) | TyForm::Vec(_) | TyForm::Struct(_) | TyForm::Dict(_, _) => Ok(
            no_type(),
        ),
    }
}

/// The type of an operator's answer.
pub(crate) fn operated_answer(op: BinOp, ty: &Ty) -> Ty
    ensures { result ≡ operated_answer op ty.now }
{
    match &ty.form {
        TyForm::Scalar(kind) => match op {
            BinOp::Add | BinOp::Sub | BinOp::Mul | BinOp::Div | BinOp::Rem => Ty::scalar(*kind),
            BinOp::Eq | BinOp::Ne | BinOp::Lt | BinOp::Le | BinOp::Gt | BinOp::Ge => {
                Ty::scalar(Kind::Bool)
            }
        },
        TyForm::Vec(_) | TyForm::Struct(_) | TyForm::Dict(_, _) | TyForm::Build(_) => no_type(),
    }
}

/// The type of what is looked up in a vector or a dictionary.
pub(crate) fn looked_up_answer(alloc: Global, ty: &Ty) -> Result<Ty, AllocError>
    ensures { IfOk result (λ found. found ≡ looked_up_answer ty.now) }
{
    match &ty.form {
        TyForm::Vec(item) => item.copy(alloc),
        TyForm::Dict(_, value) => value.copy(alloc),
        TyForm::Scalar(_) | TyForm::Struct(_) | TyForm::Build(_) => Ok(no_type()),
    }
}
