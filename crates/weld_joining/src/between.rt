//! The second `let`, taken out from behind the lets of results of names.

ghost use Rattle.std.specs.Prelude.{◌≡◌, true, IfOk};
ghost use Rattle.weld_joining.specs.Between.{is_named_result, may_come_up};
ghost use Rattle.weld_joining.specs.Parts.{IsBehind, IsNext};

use crate::halves::Node;
use crate::pairs::is_named_result;
use std::alloc::{AllocError, Global};
use weld_tree::{Binder, Expr, Form};

/// A `let` and what is left where it is taken out.
#[derive(Drop)]
pub(crate) struct Next {
    pub(crate) at: Node,
    pub(crate) binder: Binder,
    pub(crate) bound: Box<Expr>,
    pub(crate) rest: Box<Expr>,
}

/// The first `let` that binds no result of a name, taken out. The others keep their order.
#[tactic(auto, using(crate::proofs::TakenOut::first_is, crate::proofs::TakenOut::later_is, crate::proofs::TakenOut::comes_later))]
pub(crate) fn take_next(alloc: Global, e: Box<Expr>) -> Result<Next, AllocError>
    requires { may_come_up e.value ≡ true }
    ensures { IfOk result (λ n. IsNext e.value n) }
{
    let (form, place, ty) = Box::into_inner(e).into_parts();
    let Form::Let(binder, bound, rest) = form else {
        unreachable!();
    };
    let at = Node { place, ty };
    if is_named_result(&bound) {
        let next = take_next(alloc, rest)?;
        put_behind(alloc, at, binder, bound, next)
    } else {
        Ok(Next {
            at,
            binder,
            bound,
            rest,
        })
    }
}

/// A `let` before what is left.
fn put_behind(
    alloc: Global,
    at: Node,
    binder: Binder,
    bound: Box<Expr>,
    next: Next,
) -> Result<Next, AllocError>
    ensures { IfOk result (λ n. IsBehind at binder bound.value next n) }
{
    let left = Expr {
        form: Form::Let(binder, bound, next.rest),
        place: at.place,
        ty: at.ty,
    };
    Ok(Next {
        at: next.at,
        binder: next.binder,
        bound: next.bound,
        rest: Box::new(alloc, left)?,
    })
}
