//! The walk: it goes only where the type is decided.
ghost use Rattle.std.specs.Prelude.{◌≡◌, ◌∷◌, ◌++◌, All, IsSome, IfOk};
ghost use Rattle.weld_tree.specs.TypeTree.{vec, struct as struct_type, pack};
ghost use Rattle.weld_tree.specs.ExprTree.{pack_exprs};
ghost use Rattle.weld_tree.specs.ExprView.{view_one, view_two};
ghost use Rattle.weld_meaning.specs.Typing.{param_types, ProgramHas};
ghost use Rattle.weld_objects.specs.Answered.{one_answer, two_answer, answered, first_answered, all_answered};

use crate::answer_type::nodes::{
    field_answer, leaf_answer, looked_up_answer, operated_answer, result_answer,
};
use std::alloc::{AllocError, Global};
use weld_data::Kind;
use weld_meaning::Accepted;
use weld_tree::{Binder, Expr, Exprs, Form, ManyForm, OneForm, ThreeForm, TwoForm, Ty, Tys};
use weld_types::Scope;

/// The type of the program. An accepted program has just one.
pub fn answer_type(alloc: Global, p: &Accepted) -> Result<Ty, AllocError>
    ensures { IfOk result (λ ty. ProgramHas p.now ty) }
{
    let program = p.program();
    under_params(
        alloc,
        program.params.as_slice(),
        &program.body,
        &Scope::empty(),
    )
}

/// The type of the body, where the parameters have their written types, before those of the scope.
#[tactic(auto, using(crate::proofs::Scopes::last_param, crate::proofs::Scopes::notes_before, crate::proofs::Scopes::note_of_last))]
fn under_params(
    alloc: Global,
    params: &[Binder],
    body: &Expr,
    scope: &Scope,
) -> Result<Ty, AllocError>
    requires { All (λ b. IsSome b.note) params.now }
    ensures { IfOk result (λ ty. ty ≡ answered body.now (param_types params.now ++ scope.now)) }
{
    let Some((last, before)) = params.split_last() else {
        return answer(alloc, body, scope);
    };
    let Some(ty) = &last.note else { unreachable!() };
    under_params(alloc, before, body, &Scope::bound(last.sym, ty, &*scope))
}

#[cycle(answer)]
fn answer(alloc: Global, e: &Expr, scope: &Scope) -> Result<Ty, AllocError>
    ensures { IfOk result (λ ty. ty ≡ answered e.now scope.now) }
{
    match &e.form {
        Form::Leaf(leaf) => leaf_answer(alloc, leaf, scope),
        Form::One(one, part) => one_under(alloc, one, part, scope),
        Form::Two(two, first, _) => two_under(alloc, *two, first, scope),
        Form::Three(three, first, second, _) => match three {
            ThreeForm::If | ThreeForm::Select => answer(alloc, second, scope),
            ThreeForm::Slice => answer(alloc, first, scope),
        },
        Form::Many(many, parts) => match many {
            ManyForm::Vec => vec_under(alloc, parts, scope),
            ManyForm::Struct => struct_under(alloc, parts, scope),
        },
        Form::Let(binder, value, body) => let_under(alloc, binder, value, body, scope),
        Form::For(_, builder, _, _, _, _) => answer(alloc, builder, scope),
        Form::Iterate(state, _, _) => answer(alloc, state, scope),
    }
}

#[cycle(answer)]
fn one_under(alloc: Global, one: &OneForm, part: &Expr, scope: &Scope) -> Result<Ty, AllocError>
    ensures { IfOk result (λ ty. ty ≡ one_answer (view_one one.now) (answered part.now scope.now)) }
{
    match one {
        OneForm::Neg => answer(alloc, part, scope),
        OneForm::Not => Ok(Ty::scalar(Kind::Bool)),
        OneForm::Cast(kind) => Ok(Ty::scalar(*kind)),
        OneForm::Len => Ok(Ty::scalar(Kind::I64)),
        OneForm::Field(number) => {
            let ty = answer(alloc, part, scope)?;
            field_answer(alloc, *number, &ty)
        }
        OneForm::Finish => {
            let ty = answer(alloc, part, scope)?;
            result_answer(alloc, &ty)
        }
        OneForm::Builder(builder) => Ok(Ty::builder(builder.copy(alloc)?)),
    }
}

#[cycle(answer)]
fn two_under(alloc: Global, two: TwoForm, first: &Expr, scope: &Scope) -> Result<Ty, AllocError>
    ensures { IfOk result (λ ty. ty ≡ two_answer (view_two two) (answered first.now scope.now)) }
{
    match two {
        TwoForm::Binary(op) => {
            let ty = answer(alloc, first, scope)?;
            Ok(operated_answer(op, &ty))
        }
        TwoForm::And | TwoForm::Or | TwoForm::KeyExists => Ok(Ty::scalar(Kind::Bool)),
        TwoForm::LookUp => {
            let ty = answer(alloc, first, scope)?;
            looked_up_answer(alloc, &ty)
        }
        TwoForm::Merge => answer(alloc, first, scope),
    }
}

#[cycle(answer)]
fn vec_under(alloc: Global, parts: &Exprs, scope: &Scope) -> Result<Ty, AllocError>
    ensures { IfOk result (λ ty. ty ≡ vec (first_answered (pack_exprs parts.now) scope.now)) }
{
    match parts.as_slice() {
        [] => Ty::vec_of(alloc, Ty::scalar(Kind::Bool)),
        [first, ..] => {
            let item = answer(alloc, first, scope)?;
            Ty::vec_of(alloc, item)
        }
    }
}

#[cycle(answer)]
fn struct_under(alloc: Global, parts: &Exprs, scope: &Scope) -> Result<Ty, AllocError>
    ensures { IfOk result (λ ty. ty ≡ struct_type (all_answered (pack_exprs parts.now) scope.now)) }
{
    let mut fields = Tys::new(alloc);
    for part in parts.as_slice() {
        let ty = answer(alloc, part, scope)?;
        fields.push(ty)?;
    }
    Ok(Ty::struct_of(fields))
}

#[cycle(answer)]
fn let_under(
    alloc: Global,
    binder: &Binder,
    value: &Expr,
    body: &Expr,
    scope: &Scope,
) -> Result<Ty, AllocError>
    ensures { IfOk result (λ ty. ty ≡ answered body.now
        ((binder.now.sym.0, answered value.now scope.now) ∷ scope.now)) }
{
    let ty = answer(alloc, value, scope)?;
    answer(alloc, body, &Scope::bound(binder.sym, &ty, &*scope))
}
