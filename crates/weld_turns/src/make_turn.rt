//! The code of a turn: of a body that under lets and ifs ends in the struct of the next state and of whether to go on.

ghost use Rattle.std.specs.Prelude.{◌≡◌, ◌∷◌, IfOk, IfSome};
ghost use Rattle.weld_builders.specs.Outcome.{and_then};
ghost use Rattle.weld_eval.specs.FrameView.{env_of};
ghost use Rattle.weld_meaning.specs.Evaluation.{chosen, eval, eval_all, many_thing};
ghost use Rattle.weld_tree.specs.ExprTree.{make_struct, more_exprs, no_exprs, pack_exprs};
ghost use Rattle.weld_turns.specs.declared.code.Shape.TheVariants as shapes;
ghost use Rattle.weld_turns.specs.Scopes.{view_scope, ended, AreBelow, IsEndAt, IsNamedAt, IsStateAt, TurnMeans};

use crate::code::{Place, Shape, Turn, Unmade, room};
use crate::fill::fill;
use crate::make::make;
use crate::scope::{Scope, named_place, shape_of, state_place, with_name};
use crate::slots::SLOTS;
use std::alloc::Global;
use weld_eval::frame::Frame;
use weld_tree::{Expr, Exprs, Form, ManyForm, Sym, ThreeForm};

/// The code of a turn: what it takes for itself are slots from the next one on.
#[cycle(turn)]
pub fn make_turn(
    e: &Expr,
    shape: Shape,
    scope: &Scope,
    next: usize,
    frame: &Frame,
    alloc: Global,
) -> Result<Turn, Unmade>
    requires { AreBelow (view_scope scope.now) next }
    ensures { IfOk result (λ t. TurnMeans t shape (view_scope scope.now) (env_of frame.now)
        (eval e.now)) }
{
    match &e.form {
        Form::Let(binder, value, body) => {
            make_let(binder.sym, value, body, shape, scope, next, frame, alloc)
        }
        Form::Three(ThreeForm::If, test, x, y) => {
            make_fork(test, x, y, shape, scope, next, frame, alloc)
        }
        Form::Many(ManyForm::Struct, parts) => make_end(parts, shape, scope, next, frame, alloc),
        _ => Err(Unmade::Other),
    }
}

/// A turn in a box.
fn in_box(turn: Turn, alloc: Global) -> Result<Box<Turn>, Unmade>
    ensures { IfOk result (λ t. t.value ≡ turn) }
{
    match Box::new(alloc, turn) {
        Ok(turn) => Ok(turn),
        Err(_) => Err(Unmade::Memory),
    }
}

/// The same in a box.
#[cycle(turn)]
fn boxed_turn(
    e: &Expr,
    shape: Shape,
    scope: &Scope,
    next: usize,
    frame: &Frame,
    alloc: Global,
) -> Result<Box<Turn>, Unmade>
    requires { AreBelow (view_scope scope.now) next }
    ensures { IfOk result (λ t. TurnMeans t.value shape (view_scope scope.now) (env_of frame.now)
        (eval e.now)) }
{
    match make_turn(e, shape, scope, next, frame, alloc) {
        Ok(turn) => match Box::new(alloc, turn) {
            Ok(turn) => Ok(turn),
            Err(_) => Err(Unmade::Memory),
        },
        Err(unmade) => Err(unmade),
    }
}

/// An `if`: one of two turns.
#[cycle(turn)]
#[tactic(auto, using(crate::proofs::Turning::fork_means))]
fn make_fork(
    test: &Expr,
    x: &Expr,
    y: &Expr,
    shape: Shape,
    scope: &Scope,
    next: usize,
    frame: &Frame,
    alloc: Global,
) -> Result<Turn, Unmade>
    requires { AreBelow (view_scope scope.now) next }
    ensures { IfOk result (λ t. TurnMeans t shape (view_scope scope.now) (env_of frame.now)
        (λ env. and_then (eval test.now env) (λ u. chosen u (eval x.now env) (eval y.now env)))) }
{
    let test = match make(test, scope, frame, alloc) {
        Ok(test) => test,
        Err(unmade) => return Err(unmade),
    };
    let x = match boxed_turn(x, shape, scope, next, frame, alloc) {
        Ok(x) => x,
        Err(unmade) => return Err(unmade),
    };
    match boxed_turn(y, shape, scope, next, frame, alloc) {
        Ok(y) => Ok(Turn::Either(test, x, y)),
        Err(unmade) => Err(unmade),
    }
}

/// A `let`: another name of what stands in slots, or a value that is put into slots of its own.
#[cycle(turn)]
fn make_let(
    name: Sym,
    value: &Expr,
    body: &Expr,
    shape: Shape,
    scope: &Scope,
    next: usize,
    frame: &Frame,
    alloc: Global,
) -> Result<Turn, Unmade>
    requires { AreBelow (view_scope scope.now) next }
    ensures { IfOk result (λ t. TurnMeans t shape (view_scope scope.now) (env_of frame.now)
        (λ env. and_then (eval value.now env) (λ x. eval body.now ((name.0, x) ∷ env)))) }
{
    match named_place(value, scope) {
        Some(place) => {
            let inner = with_name(name, place, &*scope);
            make_turn(body, shape, &inner, next, frame, alloc)
        }
        None => let_filled(name, value, body, shape, scope, next, frame, alloc),
    }
}

/// A `let` of a value that is put into slots of its own.
#[cycle(turn)]
fn let_filled(
    name: Sym,
    value: &Expr,
    body: &Expr,
    shape: Shape,
    scope: &Scope,
    next: usize,
    frame: &Frame,
    alloc: Global,
) -> Result<Turn, Unmade>
    requires { AreBelow (view_scope scope.now) next }
    ensures { IfOk result (λ t. TurnMeans t shape (view_scope scope.now) (env_of frame.now)
        (λ env. and_then (eval value.now env) (λ x. eval body.now ((name.0, x) ∷ env)))) }
{
    if next >= SLOTS {
        return Err(Unmade::Other);
    }
    let place = Place {
        shape: shape_of(value, scope),
        first: next,
    };
    let after = next + room(place.shape);
    let filling = match fill(value, place, scope, after, frame, alloc) {
        Ok(filling) => filling,
        Err(unmade) => return Err(unmade),
    };
    let inner = with_name(name, place, &*scope);
    match boxed_turn(body, shape, &inner, after, frame, alloc) {
        Ok(rest) => Ok(Turn::First(filling, rest)),
        Err(unmade) => Err(unmade),
    }
}

/// The end of a turn: the struct of the next state and of whether to go on.
#[tactic(auto, using(crate::proofs::Turning::two_parts))]
fn make_end(
    parts: &Exprs,
    shape: Shape,
    scope: &Scope,
    next: usize,
    frame: &Frame,
    alloc: Global,
) -> Result<Turn, Unmade>
    requires { AreBelow (view_scope scope.now) next }
    ensures { IfOk result (λ t. TurnMeans t shape (view_scope scope.now) (env_of frame.now)
        (λ env. and_then (eval_all (pack_exprs parts.now) env) (many_thing make_struct))) }
{
    let items = parts.as_slice();
    if items.len() == 2 {
        end_in(&items[0], &items[1], shape, scope, next, frame, alloc)
    } else {
        Err(Unmade::Other)
    }
}

/// The same by the two parts.
fn end_in(
    state: &Expr,
    flag: &Expr,
    shape: Shape,
    scope: &Scope,
    next: usize,
    frame: &Frame,
    alloc: Global,
) -> Result<Turn, Unmade>
    requires { AreBelow (view_scope scope.now) next }
    ensures { IfOk result (λ t. TurnMeans t shape (view_scope scope.now) (env_of frame.now)
        (λ env. and_then (eval_all (more_exprs state.now (more_exprs flag.now no_exprs)) env)
        (many_thing make_struct))) }
{
    match state_place(state, shape, scope) {
        Some(first) => end_named(state, first, flag, shape, scope, frame, alloc),
        None => end_filled(state, flag, shape, scope, next, frame, alloc),
    }
}

/// The end of a turn whose next state stands in slots already.
#[tactic(auto, using(crate::proofs::Turning::end_named_means))]
fn end_named(
    state: &Expr,
    first: usize,
    flag: &Expr,
    shape: Shape,
    scope: &Scope,
    frame: &Frame,
    alloc: Global,
) -> Result<Turn, Unmade>
    requires { IsStateAt state.now shape (view_scope scope.now) first }
    ensures { IfOk result (λ t. TurnMeans t shape (view_scope scope.now) (env_of frame.now)
        (λ env. and_then (eval_all (more_exprs state.now (more_exprs flag.now no_exprs)) env)
        (many_thing make_struct))) }
{
    let (_state, _shape) = (state, shape);
    match make(flag, scope, frame, alloc) {
        Ok(flag) => Ok(Turn::End(first, flag)),
        Err(unmade) => Err(unmade),
    }
}

/// The end of a turn whose next state is put into slots of its own.
fn end_filled(
    state: &Expr,
    flag: &Expr,
    shape: Shape,
    scope: &Scope,
    next: usize,
    frame: &Frame,
    alloc: Global,
) -> Result<Turn, Unmade>
    requires { AreBelow (view_scope scope.now) next }
    ensures { IfOk result (λ t. TurnMeans t shape (view_scope scope.now) (env_of frame.now)
        (λ env. and_then (eval_all (more_exprs state.now (more_exprs flag.now no_exprs)) env)
        (many_thing make_struct))) }
{
    if next >= SLOTS {
        return Err(Unmade::Other);
    }
    let place = Place { shape, first: next };
    let filling = match fill(state, place, scope, next + room(shape), frame, alloc) {
        Ok(filling) => filling,
        Err(unmade) => return Err(unmade),
    };
    match end_at(next, flag, scope, frame, alloc) {
        Ok(end) => Ok(Turn::First(filling, end)),
        Err(unmade) => Err(unmade),
    }
}

/// The end of a turn whose next state stands in slots from that one on.
fn end_at(
    first: usize,
    flag: &Expr,
    scope: &Scope,
    frame: &Frame,
    alloc: Global,
) -> Result<Box<Turn>, Unmade>
    ensures { IfOk result (λ t. IsEndAt t.value first (view_scope scope.now) (env_of frame.now)
        (eval flag.now)) }
{
    match make(flag, scope, frame, alloc) {
        Ok(flag) => in_box(Turn::End(first, flag), alloc),
        Err(unmade) => Err(unmade),
    }
}
