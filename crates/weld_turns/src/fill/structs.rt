//! What fills slots with a struct of numbers.

ghost use Rattle.std.specs.Prelude.{◌≡◌, ◌+◌, ◌≤◌, length, drop, IfOk};
ghost use Rattle.weld_builders.specs.Outcome.{and_then};
ghost use Rattle.weld_eval.specs.FrameView.{env_of};
ghost use Rattle.weld_meaning.specs.Evaluation.{eval, eval_all, many_thing, three_thing};
ghost use Rattle.weld_tree.specs.ExprTree.{make_struct, pack_exprs, select};
ghost use Rattle.weld_turns.specs.declared.code.Shape.TheVariants as shapes;
ghost use Rattle.weld_turns.specs.Fillings.{Fills, FillsFields, Selects};
ghost use Rattle.weld_turns.specs.Scopes.{view_scope, AreBelow, IsOutsideName};

use super::{boxed_fill, fill};
use crate::code::{Filling, MOST_FIELDS, Place, Shape, Unmade};
use crate::copies::{copied, in_box, picked, put_pair, put_whole};
use crate::outer::{outer_fields, outer_pair};
use crate::scope::{Scope, outer_name, state_place};
use crate::slots::SLOTS;
use std::alloc::Global;
use weld_eval::frame::Frame;
use weld_tree::{Expr, Exprs, Form, ManyForm, Sym, ThreeForm};

/// A struct of so many numbers: its fields, one of two such structs, or its name.
#[cycle(fill)]
pub(super) fn fill_struct(
    e: &Expr,
    count: u8,
    first: usize,
    scope: &Scope,
    next: usize,
    frame: &Frame,
    alloc: Global,
) -> Result<Filling, Unmade>
    requires below { AreBelow (view_scope scope.now) first }
    requires room { first + count ≤ next }
    ensures { IfOk result (λ t. Fills t (shapes.Fields count) first (view_scope scope.now)
        (env_of frame.now) (eval e.now)) }
{
    match &e.form {
        Form::Many(ManyForm::Struct, parts) => {
            fill_written(parts, count, first, scope, next, frame, alloc)
        }
        Form::Three(ThreeForm::Select, test, x, y) => {
            fill_select(test, x, y, count, first, scope, next, frame, alloc)
        }
        _ => fill_named(e, count, first, scope, frame, alloc),
    }
}

/// A struct that is written by its fields, where there are so many.
#[cycle(fill)]
fn fill_written(
    parts: &Exprs,
    count: u8,
    first: usize,
    scope: &Scope,
    next: usize,
    frame: &Frame,
    alloc: Global,
) -> Result<Filling, Unmade>
    requires below { AreBelow (view_scope scope.now) first }
    requires room { first + count ≤ next }
    ensures { IfOk result (λ t. Fills t (shapes.Fields count) first (view_scope scope.now)
        (env_of frame.now) (λ env. and_then (eval_all (pack_exprs parts.now) env)
        (many_thing make_struct))) }
{
    let left = parts.as_slice().len();
    if left != count as usize || left > MOST_FIELDS {
        return Err(Unmade::Other);
    }
    fill_fields(parts, 0, left, first, scope, next, frame, alloc)
}

/// The fields of a struct from number i on, one after another into slots from one on.
#[cycle(fill)]
#[tactic(auto, using(crate::proofs::Scoping::below_more))]
fn fill_fields(
    parts: &Exprs,
    i: usize,
    left: usize,
    first: usize,
    scope: &Scope,
    next: usize,
    frame: &Frame,
    alloc: Global,
) -> Result<Filling, Unmade>
    requires count { i + left ≡ length parts.now }
    requires few { left ≤ 16 }
    requires below { AreBelow (view_scope scope.now) first }
    requires room { first + left ≤ next }
    ensures { IfOk result (λ t. FillsFields t left first (view_scope scope.now) (env_of frame.now)
        (eval_all (pack_exprs (drop i parts.now)))) }
{
    if left == 0 {
        return Err(Unmade::Other);
    }
    let items = parts.as_slice();
    let place = Place {
        shape: Shape::One,
        first,
    };
    if left == 1 {
        return fill(&items[i], place, scope, next, frame, alloc);
    }
    let x = match boxed_fill(&items[i], place, scope, next, frame, alloc) {
        Ok(x) => x,
        Err(unmade) => return Err(unmade),
    };
    let y = match fill_fields(parts, i + 1, left - 1, first + 1, scope, next, frame, alloc) {
        Ok(y) => y,
        Err(unmade) => return Err(unmade),
    };
    match in_box(y, alloc) {
        Ok(y) => Ok(Filling::Then(x, y)),
        Err(unmade) => Err(unmade),
    }
}

/// A `select` between two structs: its truth value and both of them are put into slots of their own first.
#[cycle(fill)]
#[tactic(auto, using(crate::proofs::Scoping::below_more))]
fn fill_select(
    test: &Expr,
    x: &Expr,
    y: &Expr,
    count: u8,
    first: usize,
    scope: &Scope,
    next: usize,
    frame: &Frame,
    alloc: Global,
) -> Result<Filling, Unmade>
    requires below { AreBelow (view_scope scope.now) first }
    requires room { first + count ≤ next }
    ensures { IfOk result (λ t. Fills t (shapes.Fields count) first (view_scope scope.now)
        (env_of frame.now) (λ env. and_then (eval test.now env)
        (λ u. three_thing select u (eval x.now env) (eval y.now env)))) }
{
    if next >= SLOTS {
        return Err(Unmade::Other);
    }
    let held = Place {
        shape: Shape::One,
        first: next,
    };
    let test = match boxed_fill(test, held, scope, next + 1, frame, alloc) {
        Ok(test) => test,
        Err(unmade) => return Err(unmade),
    };
    let rest = match fill_both(x, y, count, next, first, scope, frame, alloc) {
        Ok(rest) => rest,
        Err(unmade) => return Err(unmade),
    };
    match in_box(rest, alloc) {
        Ok(rest) => Ok(Filling::Then(test, rest)),
        Err(unmade) => Err(unmade),
    }
}

/// The same where its truth value stands in a slot.
#[cycle(fill)]
#[tactic(auto, using(crate::proofs::Scoping::below_more))]
fn fill_both(
    x: &Expr,
    y: &Expr,
    count: u8,
    held: usize,
    first: usize,
    scope: &Scope,
    frame: &Frame,
    alloc: Global,
) -> Result<Filling, Unmade>
    requires below { AreBelow (view_scope scope.now) first }
    requires room { first + count ≤ held }
    ensures { IfOk result (λ t. Selects t count held first (view_scope scope.now)
        (env_of frame.now) (eval x.now) (eval y.now)) }
{
    if held >= SLOTS {
        return Err(Unmade::Other);
    }
    let x = match boxed_struct(x, count, held + 1, scope, frame, alloc) {
        Ok(x) => x,
        Err(unmade) => return Err(unmade),
    };
    let y = match boxed_struct(y, count, held + 1 + count as usize, scope, frame, alloc) {
        Ok(y) => y,
        Err(unmade) => return Err(unmade),
    };
    let pick = match picked(count, held, first, alloc) {
        Ok(pick) => pick,
        Err(unmade) => return Err(unmade),
    };
    match in_box(Filling::Then(y, pick), alloc) {
        Ok(rest) => Ok(Filling::Then(x, rest)),
        Err(unmade) => Err(unmade),
    }
}

/// What fills slots from one on with a struct, where all behind them are free.
#[cycle(fill)]
fn boxed_struct(
    e: &Expr,
    count: u8,
    first: usize,
    scope: &Scope,
    frame: &Frame,
    alloc: Global,
) -> Result<Box<Filling>, Unmade>
    requires { AreBelow (view_scope scope.now) first }
    ensures { IfOk result (λ t. Fills t.value (shapes.Fields count) first (view_scope scope.now)
        (env_of frame.now) (eval e.now)) }
{
    if first >= SLOTS {
        return Err(Unmade::Other);
    }
    let place = Place {
        shape: Shape::Fields(count),
        first,
    };
    boxed_fill(e, place, scope, first + count as usize, frame, alloc)
}

/// A struct that a name stands for.
fn fill_named(
    e: &Expr,
    count: u8,
    first: usize,
    scope: &Scope,
    frame: &Frame,
    alloc: Global,
) -> Result<Filling, Unmade>
    requires { AreBelow (view_scope scope.now) first }
    ensures { IfOk result (λ t. Fills t (shapes.Fields count) first (view_scope scope.now)
        (env_of frame.now) (eval e.now)) }
{
    match state_place(e, Shape::Fields(count), scope) {
        Some(from) => copied(Shape::Fields(count), from, first, alloc),
        None => fill_outside(e, count, first, scope, frame, alloc),
    }
}

/// A struct that a name of outside stands for.
fn fill_outside(
    e: &Expr,
    count: u8,
    first: usize,
    scope: &Scope,
    frame: &Frame,
    alloc: Global,
) -> Result<Filling, Unmade>
    ensures { IfOk result (λ t. Fills t (shapes.Fields count) first (view_scope scope.now)
        (env_of frame.now) (eval e.now)) }
{
    match outer_name(e, scope) {
        Some(name) => fill_outer(e, name, count, first, scope, frame, alloc),
        None => Err(Unmade::Other),
    }
}

/// The same by the name: a value, or a row of two.
fn fill_outer(
    e: &Expr,
    name: Sym,
    count: u8,
    first: usize,
    scope: &Scope,
    frame: &Frame,
    alloc: Global,
) -> Result<Filling, Unmade>
    requires { IsOutsideName e.now (view_scope scope.now) name.0 }
    ensures { IfOk result (λ t. Fills t (shapes.Fields count) first (view_scope scope.now)
        (env_of frame.now) (eval e.now)) }
{
    let (_node, _scope) = (e, scope);
    match outer_fields(frame, name) {
        Some(fields) => put_whole(fields, count, first, alloc),
        None => match outer_pair(frame, name) {
            Some((x, y)) => put_pair(x, y, count, first, alloc),
            None => Err(Unmade::Other),
        },
    }
}
