//! The type of a program: its parameters, the nodes of its body, last the type of its body.
ghost use Rattle.std.specs.Prelude.{◌≡◌, ◌++◌, All, IfOk, IsSome};
ghost use Rattle.weld_meaning.specs.Typing.{param_types};
ghost use Rattle.weld_tree.specs.TypeTree.{TypeTree};
ghost use Rattle.weld_check_types.specs.Noted.{typed};
ghost use Rattle.weld_types.specs.Says.{Allows, Says};
ghost use Rattle.weld_types.specs.Walk.{Found, found, go_on, demand_at, param_types_fit, place_of, type_of};
ghost use Rattle.weld_types.specs.Tests.{is_builder_free};
ghost use Rattle.weld_tree.specs.declared.code.Code.TheVariants.{Y3};

use crate::type_walk::walk::note_types;
use std::alloc::Global;
use weld_tree::{Binder, Expr, Refusal, Ty};
use weld_types::{Scope, check_answer, check_param};

/// The type of a program of these parameters and this body; each node of the body has its type noted then. Refusals:
/// the first of the typing rules in the order of the walk: the parameters, then the nodes of the body, children before
/// parents, last the rule on the body's type (Y1 to Y30); want of memory.
#[tactic(auto)]
pub fn note_program(alloc: Global, params: &[Binder], body: &mut Expr) -> Result<Ty, Refusal>
    requires { All (λ b. IsSome b.note) params.now }
    ensures found { Says result (param_types_fit params.now
        (go_on (type_of body.old (param_types params.now))
        (λ t. demand_at (is_builder_free t) Y3 (place_of body.old) (found t)))) }
    ensures noted { IfOk result (λ _. body.new ≡ typed body.old (param_types params.now)) }
{
    check_params(params)?;
    let place = body.place;
    let ty = body_under(alloc, params, body, &Scope::empty())?;
    check_answer(&ty, place)?;
    Ok(ty)
}

/// The types of parameters are well formed and builder-free.
#[tactic(auto, using(crate::proofs::Params::param_left, crate::proofs::Params::param_refused, crate::proofs::Params::no_param_left))]
fn check_params(params: &[Binder]) -> Result<(), Refusal>
    ensures { (later : Found TypeTree) → Allows result (param_types_fit params.now later) later }
{
    for param in params {
        match check_param(param) {
            Ok(()) => {}
            Err(refusal) => return Err(refusal),
        }
    }
    Ok(())
}

/// The type of the body, where the parameters have their written types, before those of the scope.
#[tactic(auto, using(crate::proofs::Params::last_param, crate::proofs::Params::notes_before, crate::proofs::Params::note_of_last))]
fn body_under(
    alloc: Global,
    params: &[Binder],
    body: &mut Expr,
    scope: &Scope,
) -> Result<Ty, Refusal>
    requires { All (λ b. IsSome b.note) params.now }
    ensures found { Says result (type_of body.old (param_types params.now ++ scope.now)) }
    ensures noted { IfOk result (λ _. body.new ≡ typed body.old
        (param_types params.now ++ scope.now)) }
{
    let Some((last, before)) = params.split_last() else {
        return note_types(alloc, body, scope);
    };
    let Some(ty) = &last.note else { unreachable!() };
    body_under(alloc, before, body, &Scope::bound(last.sym, ty, &*scope))
}
