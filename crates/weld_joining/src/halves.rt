//! A loop or its result, taken apart.

ghost use Rattle.std.specs.Prelude.{◌≡◌, is_some, true};
ghost use Rattle.weld_joining.specs.Joining.{loop_over, over, result_of};
ghost use Rattle.weld_joining.specs.Parts.{IsHalf, IsRun};

use crate::pairs::is_result;
use weld_tree::{Binder, Expr, Form, Known, Legs, Place};

/// Where a node stands, and the type that is noted at it.
#[derive(Drop)]
pub(crate) struct Node {
    pub(crate) place: Place,
    pub(crate) ty: Known,
}

/// A loop.
#[derive(Drop)]
pub(crate) struct Run {
    pub(crate) legs: Legs,
    pub(crate) start: Box<Expr>,
    pub(crate) builder: Binder,
    pub(crate) number: Binder,
    pub(crate) row: Binder,
    pub(crate) body: Box<Expr>,
}

/// A loop, or its result with what is noted there.
#[derive(Drop)]
pub(crate) struct Half {
    pub(crate) result: Option<Node>,
    pub(crate) run: Run,
}

/// A loop or its result, taken apart.
#[tactic(auto, using(crate::proofs::TakenApart::bare_loop))]
pub(crate) fn take_half(value: Box<Expr>) -> Half
    requires { is_some (over value.value) ≡ true }
    ensures { IsHalf value.value result }
{
    if is_result(&value) {
        take_result(value)
    } else {
        let run = take_run(value);
        Half { result: None, run }
    }
}

fn take_result(value: Box<Expr>) -> Half
    requires over { is_some (over value.value) ≡ true }
    requires result { is_some (result_of value.value) ≡ true }
    ensures { IsHalf value.value result }
{
    let (form, place, ty) = Box::into_inner(value).into_parts();
    let Form::One(_, part) = form else {
        unreachable!();
    };
    let run = take_run(part);
    Half {
        result: Some(Node { place, ty }),
        run,
    }
}

fn take_run(e: Box<Expr>) -> Run
    requires { is_some (loop_over e.value) ≡ true }
    ensures { IsRun e.value result }
{
    let (form, _, _) = Box::into_inner(e).into_parts();
    let Form::For(legs, start, builder, number, row, body) = form else {
        unreachable!();
    };
    Run {
        legs,
        start,
        builder: Box::into_inner(builder),
        number: Box::into_inner(number),
        row: Box::into_inner(row),
        body,
    }
}
