//! What fills slots with the value of an expression that is a number or a struct of numbers.

ghost use Rattle.std.specs.Prelude.{◌+◌, ◌≤◌, ◌∷◌, IfOk};
ghost use Rattle.weld_builders.specs.Outcome.{and_then};
ghost use Rattle.weld_eval.specs.FrameView.{env_of};
ghost use Rattle.weld_meaning.specs.Evaluation.{chosen, eval, two_thing};
ghost use Rattle.weld_tree.specs.ExprTree.{binary};
ghost use Rattle.weld_turns.specs.declared.code.Shape.TheVariants as shapes;
ghost use Rattle.weld_turns.specs.Fillings.{Fills};
ghost use Rattle.weld_turns.specs.Scopes.{room_of, view_scope, AreBelow, IsNamedAt};

mod structs;

use crate::code::{Filling, Place, Shape, Unmade, room};
use crate::copies::{boxed_copy, in_box, worked};
use crate::make::make;
use crate::scope::{Scope, named_place, shape_of, with_name};
use crate::slots::SLOTS;
use std::alloc::Global;
use structs::fill_struct;
use weld_data::BinOp;
use weld_eval::frame::Frame;
use weld_tree::{Expr, Form, Sym, ThreeForm, TwoForm};

/// What fills a place with the value of an expression: what it takes for itself are slots from the next one on.
#[cycle(fill)]
pub fn fill(
    e: &Expr,
    place: Place,
    scope: &Scope,
    next: usize,
    frame: &Frame,
    alloc: Global,
) -> Result<Filling, Unmade>
    requires below { AreBelow (view_scope scope.now) place.first }
    requires room { place.first + room_of place.shape ≤ next }
    ensures { IfOk result (λ t. Fills t place.shape place.first (view_scope scope.now)
        (env_of frame.now) (eval e.now)) }
{
    match &e.form {
        Form::Let(binder, value, body) => {
            fill_let(binder.sym, value, body, place, scope, next, frame, alloc)
        }
        Form::Three(ThreeForm::If, test, x, y) => {
            fill_fork(test, x, y, place, scope, next, frame, alloc)
        }
        _ => match place.shape {
            Shape::One => fill_one(e, place.first, scope, next, frame, alloc),
            Shape::Fields(count) => {
                fill_struct(e, count, place.first, scope, next, frame, alloc)
            }
        },
    }
}

/// The same in a box.
#[cycle(fill)]
pub(super) fn boxed_fill(
    e: &Expr,
    place: Place,
    scope: &Scope,
    next: usize,
    frame: &Frame,
    alloc: Global,
) -> Result<Box<Filling>, Unmade>
    requires below { AreBelow (view_scope scope.now) place.first }
    requires room { place.first + room_of place.shape ≤ next }
    ensures { IfOk result (λ t. Fills t.value place.shape place.first (view_scope scope.now)
        (env_of frame.now) (eval e.now)) }
{
    match fill(e, place, scope, next, frame, alloc) {
        Ok(filling) => match Box::new(alloc, filling) {
            Ok(filling) => Ok(filling),
            Err(_) => Err(Unmade::Memory),
        },
        Err(unmade) => Err(unmade),
    }
}

/// A number: where a `let` or an `if` stands below operators, their sides are put into slots one after the other, if there are enough.
#[cycle(fill)]
fn fill_one(
    e: &Expr,
    first: usize,
    scope: &Scope,
    next: usize,
    frame: &Frame,
    alloc: Global,
) -> Result<Filling, Unmade>
    requires below { AreBelow (view_scope scope.now) first }
    requires room { first + 1 ≤ next }
    ensures { IfOk result (λ t. Fills t shapes.One first (view_scope scope.now) (env_of frame.now)
        (eval e.now)) }
{
    match &e.form {
        Form::Two(TwoForm::Binary(op), x, y) => {
            if is_whole(x) && is_whole(y) {
                return fill_number(e, first, scope, frame, alloc);
            }
            match fill_work(*op, x, y, first, scope, next, frame, alloc) {
                Err(Unmade::Other) => fill_number(e, first, scope, frame, alloc),
                made => made,
            }
        }
        _ => fill_number(e, first, scope, frame, alloc),
    }
}

/// Whether neither it nor a side of an operator in it, at any depth, is a `let` or an `if`; other forms aren't looked into.
fn is_whole(e: &Expr) -> bool {
    match &e.form {
        Form::Let(_, _, _) => false,
        Form::Three(ThreeForm::If, _, _, _) => false,
        Form::Two(TwoForm::Binary(_), x, y) => is_whole(x) && is_whole(y),
        _ => true,
    }
}

/// An operator between two numbers: the first is put into the place itself, the second into a slot of its own, and then what the
/// operator makes of them into the place.
#[cycle(fill)]
#[tactic(auto, using(crate::proofs::Scoping::below_more))]
fn fill_work(
    op: BinOp,
    x: &Expr,
    y: &Expr,
    first: usize,
    scope: &Scope,
    next: usize,
    frame: &Frame,
    alloc: Global,
) -> Result<Filling, Unmade>
    requires below { AreBelow (view_scope scope.now) first }
    requires room { first + 1 ≤ next }
    ensures { IfOk result (λ t. Fills t shapes.One first (view_scope scope.now) (env_of frame.now)
        (λ env. and_then (eval x.now env) (λ u. two_thing (binary op) u (eval y.now env)))) }
{
    if next >= SLOTS {
        return Err(Unmade::Other);
    }
    let place = Place {
        shape: Shape::One,
        first,
    };
    let x = match boxed_fill(x, place, scope, next, frame, alloc) {
        Ok(x) => x,
        Err(unmade) => return Err(unmade),
    };
    let place = Place {
        shape: Shape::One,
        first: next,
    };
    let y = match boxed_fill(y, place, scope, next + 1, frame, alloc) {
        Ok(y) => y,
        Err(unmade) => return Err(unmade),
    };
    match worked(op, first, next, alloc) {
        Ok(work) => match in_box(Filling::Then(y, work), alloc) {
            Ok(rest) => Ok(Filling::Then(x, rest)),
            Err(unmade) => Err(unmade),
        },
        Err(unmade) => Err(unmade),
    }
}

/// A number, which is put into its slot.
#[tactic(auto, using(crate::proofs::Fillings::number_fills))]
fn fill_number(
    e: &Expr,
    first: usize,
    scope: &Scope,
    frame: &Frame,
    alloc: Global,
) -> Result<Filling, Unmade>
    ensures { IfOk result (λ t. Fills t shapes.One first (view_scope scope.now) (env_of frame.now)
        (eval e.now)) }
{
    match make(e, scope, frame, alloc) {
        Ok(code) => Ok(Filling::Put(first, code)),
        Err(unmade) => Err(unmade),
    }
}

/// An `if`: one of two fillings of the place.
#[cycle(fill)]
#[tactic(auto, using(crate::proofs::Fillings::fork_fills))]
fn fill_fork(
    test: &Expr,
    x: &Expr,
    y: &Expr,
    place: Place,
    scope: &Scope,
    next: usize,
    frame: &Frame,
    alloc: Global,
) -> Result<Filling, Unmade>
    requires below { AreBelow (view_scope scope.now) place.first }
    requires room { place.first + room_of place.shape ≤ next }
    ensures { IfOk result (λ t. Fills t place.shape place.first (view_scope scope.now)
        (env_of frame.now) (λ env. and_then (eval test.now env)
        (λ u. chosen u (eval x.now env) (eval y.now env)))) }
{
    let test = match make(test, scope, frame, alloc) {
        Ok(test) => test,
        Err(unmade) => return Err(unmade),
    };
    let x = match boxed_fill(x, place, scope, next, frame, alloc) {
        Ok(x) => x,
        Err(unmade) => return Err(unmade),
    };
    match boxed_fill(y, place, scope, next, frame, alloc) {
        Ok(y) => Ok(Filling::Either(test, x, y)),
        Err(unmade) => Err(unmade),
    }
}

/// A `let`: another name of what stands in slots, or a value that is put into slots of its own.
#[cycle(fill)]
fn fill_let(
    name: Sym,
    value: &Expr,
    body: &Expr,
    place: Place,
    scope: &Scope,
    next: usize,
    frame: &Frame,
    alloc: Global,
) -> Result<Filling, Unmade>
    requires below { AreBelow (view_scope scope.now) place.first }
    requires room { place.first + room_of place.shape ≤ next }
    ensures { IfOk result (λ t. Fills t place.shape place.first (view_scope scope.now)
        (env_of frame.now) (λ env. and_then (eval value.now env)
        (λ x. eval body.now ((name.0, x) ∷ env)))) }
{
    match named_place(value, scope) {
        Some(held) => {
            let inner = with_name(name, held, &*scope);
            fill(body, place, &inner, next, frame, alloc)
        }
        None => fill_after(name, value, body, place, scope, next, frame, alloc),
    }
}

/// A `let` of a value that is put into slots of its own.
#[cycle(fill)]
#[tactic(auto, using(crate::proofs::Scoping::below_more, crate::proofs::Scoping::held_below))]
fn fill_after(
    name: Sym,
    value: &Expr,
    body: &Expr,
    place: Place,
    scope: &Scope,
    next: usize,
    frame: &Frame,
    alloc: Global,
) -> Result<Filling, Unmade>
    requires below { AreBelow (view_scope scope.now) place.first }
    requires room { place.first + room_of place.shape ≤ next }
    ensures { IfOk result (λ t. Fills t place.shape place.first (view_scope scope.now)
        (env_of frame.now) (λ env. and_then (eval value.now env)
        (λ x. eval body.now ((name.0, x) ∷ env)))) }
{
    if next >= SLOTS {
        return Err(Unmade::Other);
    }
    let held = Place {
        shape: shape_of(value, scope),
        first: next,
    };
    let after = next + room(held.shape);
    let value = match boxed_fill(value, held, scope, after, frame, alloc) {
        Ok(value) => value,
        Err(unmade) => return Err(unmade),
    };
    let inner = with_name(name, held, &*scope);
    match fill_above(body, place, &inner, after, frame, alloc) {
        Ok(body) => Ok(Filling::Then(value, body)),
        Err(unmade) => Err(unmade),
    }
}

/// What fills a place that lies below those of names: it fills slots above them first.
#[cycle(fill)]
#[tactic(auto, using(crate::proofs::Fillings::above_fills))]
fn fill_above(
    e: &Expr,
    place: Place,
    scope: &Scope,
    next: usize,
    frame: &Frame,
    alloc: Global,
) -> Result<Box<Filling>, Unmade>
    requires below { AreBelow (view_scope scope.now) next }
    requires room { place.first + room_of place.shape ≤ next }
    ensures { IfOk result (λ t. Fills t.value place.shape place.first (view_scope scope.now)
        (env_of frame.now) (eval e.now)) }
{
    if next >= SLOTS {
        return Err(Unmade::Other);
    }
    let above = Place {
        shape: place.shape,
        first: next,
    };
    let after = next + room(place.shape);
    let x = match boxed_fill(e, above, scope, after, frame, alloc) {
        Ok(x) => x,
        Err(unmade) => return Err(unmade),
    };
    match boxed_copy(place.shape, next, place.first, alloc) {
        Ok(y) => in_box(Filling::Then(x, y), alloc),
        Err(unmade) => Err(unmade),
    }
}
